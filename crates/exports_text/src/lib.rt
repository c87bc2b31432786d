// The job's text for C and Rust callers.
#![tactic(auto)]

ghost use Rattle.std.specs.Prelude.{◌≡◌};
ghost use Rattle.plate_text.specs.PaveText.{text_call, texted};

// The answer's text with zeros behind it, and its length; with a buffer of fewer than 270,336 bytes nothing is written, and the result is 0.
#[unsafe(no_mangle)]
pub extern "C" fn pave_text(input: &[u8], output: &mut [u8]) -> u64
    ensures { texted result output.new ≡ text_call input.now output.old }
{
    // as: Rust has no From between usize and u64
    plate_text::pave_text(input, output) as u64
}
