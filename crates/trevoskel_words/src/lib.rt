// Words for a caller that lends room for them, and may lend less.
#![tactic(auto)]

ghost use Rattle.std.specs.Prelude.{◌≡◌};
ghost use Rattle.trevoskel_words.specs.Written.{written};

// Writes as many of the words as the result has room for.
pub fn write(words: &[u64], res: &mut [u64])
    ensures { res.new ≡ written words.now res.old }
{
    let room = words.len().min(res.len());
    res[..room].copy_from_slice(&words[..room]);
}
