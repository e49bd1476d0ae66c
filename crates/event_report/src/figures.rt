ghost use Rattle.std.specs.Prelude.{◌≡◌, ◌+◌, ◌≤◌, ◌^◌, length, [], ◌∷◌, IfSome, IsTrue, pos, neg_ℤ, ◌≤ℤ◌};
ghost use Rattle.event_report.specs.Integers.{is_narrow, whole_items};
ghost use Rattle.event_report.specs.Tallies.{figures_of};
ghost use Rattle.event_report.specs.Steps.{joined_figures, some_figures, widened};
ghost use Rattle.event_report.specs.Held.{FiguresWithin};

use crate::integers::IntegerType;
use crate::rows::Figures;

/// The figures of one item.
fn figures_of_one(item: i128) -> Figures
    requires low { neg_ℤ (pos (2 ^ 64)) ≤ℤ item }
    requires high { item ≤ℤ pos (2 ^ 64) }
    ensures figures { result ≡ figures_of (item ∷ []) }
    ensures within { FiguresWithin 1 result }
{
    Figures {
        count: 1,
        sum: item,
        least: item,
        greatest: item,
    }
}

/// The figures of what two figures are of, together.
pub fn join(first: &Figures, second: &Figures) -> Figures
    requires first { FiguresWithin first.now.count first.now }
    requires second { FiguresWithin second.now.count second.now }
    requires fits { first.now.count + second.now.count ≤ 2 ^ 62 }
    ensures joined { result ≡ joined_figures first.now second.now }
    ensures within { FiguresWithin (first.now.count + second.now.count) result }
{
    Figures {
        count: first.count + second.count,
        sum: first.sum + second.sum,
        least: first.least.min(second.least),
        greatest: first.greatest.max(second.greatest),
    }
}

/// What is known of some items that fit in 64 bits with a sign, of which there is at least one.
#[derive(Clone, Copy)]
struct NarrowFigures {
    count: u64,
    sum: i128,
    least: i64,
    greatest: i64,
}

/// What is known of one item.
fn narrow_of_one(item: i64) -> NarrowFigures
    ensures figures { widened result ≡ figures_of (item ∷ []) }
    ensures within { FiguresWithin 1 (widened result) }
{
    NarrowFigures {
        count: 1,
        sum: item as i128,
        least: item,
        greatest: item,
    }
}

/// What is known with one item more.
fn add_narrow(figures: &NarrowFigures, item: i64) -> NarrowFigures
    requires within { FiguresWithin figures.now.count (widened figures.now) }
    requires fits { figures.now.count + 1 ≤ 2 ^ 62 }
    ensures joined { widened result ≡ joined_figures (widened figures.now)
        (figures_of (item ∷ [])) }
    ensures within { FiguresWithin (figures.now.count + 1) (widened result) }
{
    NarrowFigures {
        count: figures.count + 1,
        sum: figures.sum + item as i128,
        least: figures.least.min(item),
        greatest: figures.greatest.max(item),
    }
}

/// The same as figures of any items.
fn widen(figures: &NarrowFigures) -> Figures
    ensures { result ≡ widened figures.now }
{
    Figures {
        count: figures.count,
        sum: figures.sum,
        least: figures.least as i128,
        greatest: figures.greatest as i128,
    }
}

/// The figures of the whole items of a bank's data, of a type whose items fit in 64 bits with a sign.
#[inline(always)]
fn read_narrow(kind: IntegerType, body: &[u8]) -> Option<Figures>
    requires narrow { IsTrue (is_narrow kind) }
    requires long { length body.now ≤ 2 ^ 62 }
    ensures figures { result ≡ some_figures (whole_items kind body.now) }
    ensures within { IfSome result (λ figures. FiguresWithin (length body.now) figures) }
{
    let size = kind.size();
    if body.len() < size {
        return None;
    }
    let mut figures = narrow_of_one(kind.narrow_item(body));
    let (_, mut left) = body.split_at(size);
    while left.len() >= size {
        figures = add_narrow(&figures, kind.narrow_item(left));
        let (_, rest) = left.split_at(size);
        left = rest;
    }
    Some(widen(&figures))
}

/// The figures of the whole items of a bank's data, of any type.
fn read_wide(kind: IntegerType, body: &[u8]) -> Option<Figures>
    requires { length body.now ≤ 2 ^ 62 }
    ensures figures { result ≡ some_figures (whole_items kind body.now) }
    ensures within { IfSome result (λ figures. FiguresWithin (length body.now) figures) }
{
    let size = kind.size();
    if body.len() < size {
        return None;
    }
    let mut figures = figures_of_one(kind.first_item(body));
    let (_, mut left) = body.split_at(size);
    while left.len() >= size {
        let item = figures_of_one(kind.first_item(left));
        figures = join(&figures, &item);
        let (_, rest) = left.split_at(size);
        left = rest;
    }
    Some(figures)
}

/// The figures of the whole items of a bank's data; `None` exactly where there is no whole item. The type is a constant in
/// each arm, so that the loop over the items has no choice in it.
pub fn read_figures(kind: IntegerType, body: &[u8]) -> Option<Figures>
    requires { length body.now ≤ 2 ^ 62 }
    ensures figures { result ≡ some_figures (whole_items kind body.now) }
    ensures within { IfSome result (λ figures. FiguresWithin (length body.now) figures) }
{
    match kind {
        IntegerType::UInt8 => read_narrow(IntegerType::UInt8, body),
        IntegerType::Int8 => read_narrow(IntegerType::Int8, body),
        IntegerType::UInt16 => read_narrow(IntegerType::UInt16, body),
        IntegerType::Int16 => read_narrow(IntegerType::Int16, body),
        IntegerType::UInt32 => read_narrow(IntegerType::UInt32, body),
        IntegerType::Int32 => read_narrow(IntegerType::Int32, body),
        IntegerType::Int64 => read_narrow(IntegerType::Int64, body),
        IntegerType::UInt64 => read_wide(IntegerType::UInt64, body),
    }
}
