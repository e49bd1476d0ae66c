ghost use Rattle.std.specs.Prelude.{◌≡◌, ◌<◌, ◌^◌, None, IfOk, MatchOption, vec_len, vec_capacity};
ghost use Rattle.std.specs.Option.{option_map, option_copied};
ghost use Rattle.std.specs.List.{filter};
ghost use Rattle.odb_tree.specs.Calls.{is_row_below};
ghost use Rattle.odb_links.specs.Seen.{link_numbered, LinksRise, with_link};
ghost use Rattle.odb_links.specs.Places.{LinkStands};

use daq_types::NoMemory;
use odb_tree::Database;
use odb_value::Path;
use std::alloc::Global;

/// A link: the number of its row, and the path that it goes to.
#[derive(Drop)]
pub struct Link {
    pub row: u32,
    pub target: Path,
}

/// Where the link with this row stands.
fn place_of(links: &[Link], row: u32) -> Option<usize>
    requires { LinksRise 1 links.now (2 ^ 32) }
    ensures { MatchOption result (link_numbered links.now row ≡ None) (LinkStands links.now row) }
{
    match links.binary_search_by_key(&row, |link| link.row) {
        Ok(at) => Some(at),
        Err(_) => None,
    }
}

/// Where the link with this row goes to, if it is one.
pub fn target_of(links: &[Link], row: u32) -> Option<&Path>
    requires { LinksRise 1 links.now (2 ^ 32) }
    ensures { option_copied result ≡ option_map (λ link. link.target)
        (link_numbered links.now row) }
{
    match place_of(links, row) {
        Some(at) => Some(&links[at].target),
        None => None,
    }
}

/// The row is now that of a link to this path. Takes no memory.
pub fn keep(links: &mut Vec<Link>, row: u32, target: Path)
    requires order { LinksRise 1 links.old.items (2 ^ 32) }
    requires room { vec_len links.old < vec_capacity links.old }
    ensures { links.new.items ≡ with_link links.old.items row target }
{
    let link = Link { row, target };
    match place_of(links.as_slice(), row) {
        Some(at) => links[at] = link,
        None => links.push_reserved(link),
    }
}

/// Only the links stay whose row is there still. Takes no memory.
pub fn forget<D: Database>(tree: &D, links: &mut Vec<Link>)
    ensures { links.new.items ≡ filter (λ link. is_row_below (D.rows tree.now) link.row 0)
        links.old.items }
{
    links.retain(|link| tree.is_below(link.row, 0));
}

/// The same links once more.
pub fn copy_links(alloc: Global, links: &[Link]) -> Result<Vec<Link>, NoMemory>
    ensures { IfOk result (λ copy. copy.items ≡ links.now) }
{
    let mut copy = Vec::with_capacity(alloc, links.len())?;
    for link in links {
        copy.push(Link {
            row: link.row,
            target: link.target.try_clone(alloc)?,
        })?;
    }
    Ok(copy)
}
