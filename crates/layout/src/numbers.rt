// The file of the highest day number that a machine ever raised.
ghost use Rattle.std.specs.Prelude.{◌≡◌, ◌^◌, ◌<◌, IfSome, Some};
ghost use Rattle.layout.specs.Numbers.{number_bytes};

use crate::signed::before_digest;
use digest::sha256;

// The bytes of the file.
pub fn number_file(number: u32) -> [u8; 36]
    ensures { result ≡ number_bytes number }
{
    let bytes = number.to_be_bytes();
    let digest = sha256(&bytes);
    let mut file = [0; 36];
    file[..4].copy_from_slice(&bytes);
    file[4..].copy_from_slice(digest.as_bytes());
    file
}

// The number whose file the bytes are.
pub fn read_number(bytes: &[u8]) -> Option<u32>
    ensures only { IfSome result (λ n. bytes.now ≡ number_bytes n) }
    ensures back { (n : _) → n < 2 ^ 32 → bytes.now ≡ number_bytes n → result ≡ Some n }
{
    let body = before_digest(bytes)?;
    let number = body.as_array::<4>()?;
    Some(u32::from_be_bytes(*number))
}
