ghost use Rattle.std.specs.Prelude.{◌≡◌, ◌≢◌, ◌≤◌, ◌^◌, true, [], length, unwrap_or, Some, None, Ok, Err, IfOk, IfErr, IfSome, MatchOption};
ghost use Rattle.std.specs.Option.{option_map, option_copied};
ghost use Rattle.odb_value.specs.Paths.{IsPath};
ghost use Rattle.odb_tree.specs.declared.refusals.OdbRefusal.TheVariants.{NoMemory as no_memory};
ghost use Rattle.odb_tree.specs.Links.{first_link, follow, resolved, meets_link};
ghost use Rattle.odb_tree.specs.Calls.{Gives};
ghost use Rattle.odb_links.specs.Seen.{link_numbered, LinksRise, AreLinks, seen};
ghost use Rattle.odb_links.specs.Places.{hit_at, hit_among, met_by};

use crate::links::{Link, target_of};
use daq_types::Name;
use odb_tree::{Database, OdbRefusal};
use odb_value::{MAX_DEPTH, Path};
use std::alloc::Global;

/// How many links a path is led through.
const MAX_LINKS: u32 = 16;

/// A link that is followed on a path: where it goes to, and how many names lead to it.
#[derive(Clone, Copy)]
pub struct Hit<'a> {
    pub target: &'a Path,
    pub depth: usize,
}

/// Where the row leads to as a link that is followed, with these names behind it.
fn target_met<'a>(links: &'a [Link], row: u32, rest: &[Name], last: bool) -> Option<&'a Path>
    requires { LinksRise 1 links.now (2 ^ 32) }
    ensures { option_copied result ≡ option_map (λ met. met.target)
        (hit_at last rest.now (link_numbered links.now row)) }
{
    if last || !rest.is_empty() {
        target_of(links, row)
    } else {
        None
    }
}

/// The first link that is followed, where the rows at the first of these names, the first two and so on have these
/// numbers.
fn hit_among<'a>(links: &'a [Link], numbers: &[u32], names: &[Name], last: bool) -> Option<Hit<'a>>
    requires order { LinksRise 1 links.now (2 ^ 32) }
    requires within { length numbers.now ≤ length names.now }
    ensures first { MatchOption result (hit_among links.now last numbers.now names.now ≡ None)
        (λ hit. hit_among links.now last numbers.now names.now ≡ Some (met_by names.now hit)) }
    ensures depth { IfSome result (λ hit. hit.depth ≤ length names.now) }
{
    for i in 0..numbers.len() {
        let depth = i + 1;
        if let Some(target) = target_met(links, numbers[i], &names[depth..], last) {
            return Some(Hit { target, depth });
        }
    }
    None
}

/// The first link that is followed on a path. Takes no memory.
fn first_hit<'a, D: Database>(
    tree: &D,
    links: &'a [Link],
    path: &Path,
    last: bool,
) -> Option<Hit<'a>>
    requires { AreLinks links.now (D.rows tree.now) }
    ensures first { MatchOption result
        (first_link (seen links.now (D.rows tree.now)).rows last [] path.now ≡ None)
        (λ hit. first_link (seen links.now (D.rows tree.now)).rows last [] path.now
        ≡ Some (met_by path.now hit)) }
    ensures depth { IfSome result (λ hit. hit.depth ≤ length path.now) }
{
    if links.is_empty() {
        return None;
    }
    let mut numbers = [0; MAX_DEPTH];
    let count = tree.walk(path, &mut numbers) as usize;
    hit_among(links, &numbers[..count], path.names(), last)
}

/// The path by this link, which is followed after so many others.
fn onward(alloc: Global, hit: &Hit<'_>, names: &[Name], steps: u32) -> Result<Path, OdbRefusal>
    requires { hit.now.depth ≤ length names.now }
    ensures { Gives result (follow Ok steps names.now (Some (met_by names.now hit.now))) }
{
    let target = hit.target.names();
    let rest = &names[hit.depth..];
    if target.len() + rest.len() > MAX_DEPTH {
        return Err(OdbRefusal::BadLink { steps });
    }
    let mut path = Path::of(alloc, target)?;
    for name in rest {
        path.push(*name)?;
    }
    Ok(path)
}

/// The path after its links, or the one that is given.
pub fn goal<'a>(led: &'a Option<Path>, path: &'a Path) -> &'a Path
    ensures path { result.now ≡ unwrap_or led.now path.now }
    ensures is_path { IsPath result.now }
{
    let goal = match led {
        Some(led) => led,
        None => path,
    };
    let _ = goal.names();
    goal
}

/// The path after its links, of which one at its end is followed with `last` alone; None where no link is followed.
/// Takes memory only where one is.
pub fn lead<D: Database>(
    tree: &D,
    links: &[Link],
    alloc: Global,
    path: &Path,
    last: bool,
) -> Result<Option<Path>, OdbRefusal>
    requires { AreLinks links.now (D.rows tree.now) }
    ensures led { IfOk result (λ led. resolved (seen links.now (D.rows tree.now)) path.now last
        ≡ Ok (unwrap_or led path.now)) }
    ensures refused { IfErr result (λ refusal. refusal ≢ no_memory
        → resolved (seen links.now (D.rows tree.now)) path.now last ≡ Err refusal) }
    ensures memory { result ≡ Err no_memory → meets_link (seen links.now (D.rows tree.now))
        path.now last ≡ true }
{
    let mut led = None;
    for steps in 0..MAX_LINKS {
        let here = goal(&led, path);
        let Some(hit) = first_hit(tree, links, here, last) else {
            return Ok(led);
        };
        led = Some(onward(alloc, &hit, here.names(), steps)?);
    }
    match first_hit(tree, links, goal(&led, path), last) {
        None => Ok(led),
        Some(_) => Err(OdbRefusal::BadLink { steps: MAX_LINKS }),
    }
}
