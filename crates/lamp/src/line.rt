// The line of a request, composed in an array: a longer one than the box reads is cut one byte past what it reads, and gets the same 4.
ghost use Rattle.std.specs.Prelude.{◌≡◌, ◌++◌, ◌≤◌, length, take};
ghost use Rattle.job.specs.Filing.{below};
ghost use Rattle.lamp.specs.Runs.{Grown};

// One byte more than the longest line that the box reads.
pub const HELD: usize = 257;

// Bytes put after the first `at` of a line, as many as there is room for: how long it is then.
fn put(line: &mut [u8], at: usize, s: &[u8]) -> usize
    requires { at ≤ length line.old }
    ensures { Grown line.old at s.now line.new result }
{
    let end = at + s.len().min(line.len() - at);
    line[at..end].copy_from_slice(&s[..end - at]);
    end
}

// A function's words, a chain and a link, as the part of a lent array that they take.
pub fn compose<'a>(line: &'a mut [u8], words: &[u8], chain: &[u8], link: &[u8]) -> &'a [u8]
    ensures { result.now ≡ take (length line.old) (words.now ++ below chain.now link.now) }
{
    let mut n = 0;
    n = put(line, n, words);
    n = put(line, n, chain);
    n = put(line, n, b":");
    n = put(line, n, link);
    &line[..n]
}
