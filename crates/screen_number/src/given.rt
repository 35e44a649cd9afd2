// Bytes that are given.
ghost use Rattle.std.specs.Prelude.{◌≡◌, ◌+◌, ◌≤◌, length};
ghost use Rattle.std.proofs.lemmas.List.Edits.{sets};
ghost use Rattle.screen_number.specs.Number.{times};

// Bytes as they are.
pub fn put_bytes(out: &mut [u8], at: usize, given: &[u8]) -> usize
    requires { at + length given.now ≤ length out.old }
    ensures value { result ≡ at + length given.now }
    ensures out_after { out.new ≡ sets out.old at given.now }
{
    let end = at + given.len();
    out[at..end].copy_from_slice(given);
    end
}

// So many bytes, all the same.
pub fn put_times(out: &mut [u8], at: usize, n: usize, b: u8) -> usize
    requires { at + n ≤ length out.old }
    ensures value { result ≡ at + length (times n b) }
    ensures out_after { out.new ≡ sets out.old at (times n b) }
{
    let end = at + n;
    out[at..end].fill(b);
    end
}
