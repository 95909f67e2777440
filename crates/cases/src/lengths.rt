ghost use Rattle.std.specs.Prelude.{◌≤◌};

use kinds::fault::ContentFault;
use kinds::kind::Kind;

// Whether a length is refused exactly if it is not the kind's width, and nothing is written then.
pub fn keeps_to_width<K: Kind>(width: usize, content: &K, filler: u8, n: usize) -> bool
    requires { n ≤ 66 }
{
    let mut bytes = [filler; 66];
    let read = match K::read(&bytes[..n]) {
        Ok(_) => n == width,
        Err(fault) => fault.is_length() && n != width,
    };
    let wrote = match content.write(&mut bytes[..n]) {
        Ok(()) => n == width,
        Err(fault) => n != width && fault == ContentFault::WrongLength && bytes == [filler; 66],
    };
    read && wrote
}
