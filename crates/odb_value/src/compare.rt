ghost use Rattle.std.specs.Prelude.{◌≡◌};
ghost use Rattle.odb_value.specs.Paths.{same_name, is_front, same_path};

use daq_types::Name;

fn is_same_name(a: &Name, b: &Name) -> bool
    ensures { result ≡ same_name a.now b.now }
{
    a.same_as(b)
}

/// Whether the first names are the first of the others: whether the path with these names is the other or a directory
/// above it.
pub fn is_front(front: &[Name], names: &[Name]) -> bool
    ensures { result ≡ is_front front.now names.now }
{
    if names.len() < front.len() {
        return false;
    }
    for i in 0..front.len() {
        if !is_same_name(&front[i], &names[i]) {
            return false;
        }
    }
    true
}

/// Whether these names are those of the same path.
pub fn is_same(a: &[Name], b: &[Name]) -> bool
    ensures { result ≡ same_path a.now b.now }
{
    a.len() == b.len() && is_front(a, b)
}
