// The buffer of who prints an answer. It comes from a call, so that its length stands in the contract: where the array stands in the
// program itself, the prover counts to its length, which took most of a program's check.
ghost use Rattle.std.specs.Prelude.{◌≡◌, length};

fn buffer<const N: usize>() -> [u8; N]
    ensures { N ≡ length result }
{
    [0; N]
}

// What `pave_text` asks for.
pub fn answer_buffer() -> [u8; 270336]
    ensures { 270336 ≡ length result }
{
    buffer()
}
