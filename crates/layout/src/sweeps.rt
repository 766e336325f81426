// The file of what the sweeper does.
ghost use Rattle.std.specs.Prelude.{◌≡◌, IfOk, IfSome, Some};
ghost use Rattle.std.specs.Int.{w32, to_be_bytes};
ghost use Rattle.std.specs.List.{flat_map};
ghost use Rattle.store.specs.declared.sweep.Sweep.TheVariants.{Waits};
ghost use Rattle.layout.specs.Sweeps.{IsSweep, sweep_body, sweep_bytes};

use crate::signed::before_digest;
use digest::sha256;
use std::alloc::{AllocError, Global};
use store::{Noted, Sweep};

// The bytes of the file.
pub fn sweep_file(heap: Global, sweep: &Sweep) -> Result<Vec<u8>, AllocError>
    ensures { IfOk result (λ v. v.items ≡ sweep_bytes sweep.now) }
{
    let mut file = Vec::new(heap);
    match sweep {
        Sweep::Rests => file.push(0)?,
        Sweep::Waits(noted) => {
            file.push(1)?;
            for number in noted.highest.as_slice() {
                file.extend_from_slice(&number.to_be_bytes())?;
            }
        }
        Sweep::Ends => file.push(2)?,
    }
    let digest = sha256(&file);
    file.extend_from_slice(digest.as_bytes())?;
    Ok(file)
}

// The numbers that were noted of the machines.
fn noted_in(bytes: &[u8]) -> Option<Noted>
    ensures only { IfSome result (λ n. bytes.now ≡ flat_map (to_be_bytes w32) n.highest) }
    ensures back { (n : _) → IsSweep (Waits n) → bytes.now ≡ flat_map (to_be_bytes w32) n.highest → result ≡ Some n }
{
    let (numbers, []) = bytes.as_chunks::<4>() else {
        return None;
    };
    let numbers = numbers.as_array::<64>()?;
    Some(Noted {
        highest: numbers.map(u32::from_be_bytes),
    })
}

// What the sweeper does, by what stands before the digest.
fn sweep_in(body: &[u8]) -> Option<Sweep>
    ensures only { IfSome result (λ s. body.now ≡ sweep_body s) }
    ensures back { (s : _) → IsSweep s → body.now ≡ sweep_body s → result ≡ Some s }
{
    let (kind, numbers) = body.split_first()?;
    match *kind {
        0 if numbers.is_empty() => Some(Sweep::Rests),
        1 => Some(Sweep::Waits(noted_in(numbers)?)),
        2 if numbers.is_empty() => Some(Sweep::Ends),
        _ => None,
    }
}

// What the sweeper does, whose file the bytes are.
pub fn read_sweep(bytes: &[u8]) -> Option<Sweep>
    ensures only { IfSome result (λ s. bytes.now ≡ sweep_bytes s) }
    ensures back { (s : _) → IsSweep s → bytes.now ≡ sweep_bytes s → result ≡ Some s }
{
    sweep_in(before_digest(bytes)?)
}
