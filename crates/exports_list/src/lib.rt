// The test of a tile list's text for C and Rust callers.
#![tactic(auto)]

ghost use Rattle.std.specs.Prelude.{◌≡◌};
ghost use Rattle.tile_list.specs.Recheck.{recheck_call, rechecked};

// The list's own text or a refusal, with zeros behind it, and its length; with a buffer of fewer than 286,720 bytes nothing is written, and the result is 0.
#[unsafe(no_mangle)]
pub extern "C" fn pave_recheck(input: &[u8], output: &mut [u8]) -> u64
    ensures { rechecked result output.new ≡ recheck_call input.now output.old }
{
    // as: Rust has no From between usize and u64
    tile_list::recheck(input, output) as u64
}
