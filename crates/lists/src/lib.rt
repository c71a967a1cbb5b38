// What every layer shares and no document owns: the order of two runs of bytes.
// The definitions and laws of lists that go with them stand in specs/, each once, over the element, the index or the width.
#![tactic(auto)]

ghost use Rattle.std.specs.Prelude.{◌≡◌};
ghost use Rattle.lists.specs.Order.{byte_order};

use std::cmp::Ordering;

// The order of two runs of bytes: the first difference decides, and a run comes before its extensions.
pub fn compare(a: &[u8], b: &[u8]) -> Ordering
    ensures { result ≡ byte_order a.now b.now }
{
    a.cmp(&b)
}
