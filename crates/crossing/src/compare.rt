ghost use Rattle.std.specs.Prelude.{◌≡◌, ◌↔◌, IsTrue};

use kinds::kind::Kind;
use week::compare::alike;
use week::week::Week;

// Whether two contents are written alike, which is to be equal: a kind need not have an `==`. The
// buffers are as long as any kind is wide: a `Vec` of its width could fail for want of memory.
fn same<K: Kind>(a: &K, b: &K) -> bool
    ensures { IsTrue result ↔ (a.now ≡ b.now) }
{
    let width = K::width();
    let mut first = [0u8; 64];
    let mut second = [0u8; 64];
    let first = &mut first[..width];
    let second = &mut second[..width];
    a.write(first).is_ok() && b.write(second).is_ok() && alike(first, second)
}

/// Whether two weeks are equal on every day.
pub fn same_week<K: Kind>(a: &Week<K>, b: &Week<K>) -> bool
    ensures { IsTrue result ↔ (a.now.days ≡ b.now.days) }
{
    a.days.iter().zip(&b.days).all(|(a, b)| same(a, b))
}
