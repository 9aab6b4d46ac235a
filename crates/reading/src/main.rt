// Reads request lines from standard input and prints, a line for each, what the reader makes of it: the reply number, the
// argument and the link; or 0, the function, and the numbers of the request in the order of its fields, a dash for a part that is not given,
// T or G and a user before a name that starts at that user's `.T` or in that user's `.G`; for CRD and WRS also the first five
// bytes of the heading that is laid for such a file.
#![tactic(auto)]

ghost use Rattle.std.specs.Prelude.{◌≤◌, length};

use declarations::part::Part;
use reader::request::{Refusal, Request, read_line};
use records::bytes::Bytes;
use records::code::Code;
use records::heading::Heading;
use std::io::Read;
use std::{fmt, io};
use words::begin::Begin;

// The most bytes of input that are read.
const MOST: usize = 4096;

// A number, or a dash where it is not given.
#[derive(Clone, Copy)]
struct Given<T>(Option<T>);

impl<T: fmt::Display> fmt::Display for Given<T> {
    fn fmt<W: fmt::Write>(&self, f: &mut fmt::Formatter<W>) -> fmt::Result {
        match &self.0 {
            Some(n) => write!(f, "{n}"),
            None => write!(f, "-"),
        }
    }
}

// Where a name starts, unless in one's own base list, and the name.
#[derive(Clone, Copy)]
struct Named(Begin, usize);

impl fmt::Display for Named {
    fn fmt<W: fmt::Write>(&self, f: &mut fmt::Formatter<W>) -> fmt::Result {
        let Named(begin, name) = *self;
        match begin {
            Begin::Own => write!(f, "{name}"),
            Begin::Take(user) => write!(f, "T{user} {name}"),
            Begin::Give(user) => write!(f, "G{user} {name}"),
        }
    }
}

// The first five bytes of a heading: kind, type, level, code and lifetime.
#[derive(Clone, Copy)]
struct Laid(Heading);

impl fmt::Display for Laid {
    fn fmt<W: fmt::Write>(&self, f: &mut fmt::Formatter<W>) -> fmt::Result {
        let [kind, ty, level, code, lifetime, ..] = self.0.laid();
        write!(f, "{kind} {ty} {level} {code} {lifetime}")
    }
}

fn first_bytes(ty: u8, lifetime: u8, level: Part, digit: Part) -> Laid {
    Laid(Heading {
        ty,
        level: level.unwrap_or(0),
        code: Code(digit.unwrap_or(0)),
        lifetime,
        length: Bytes(0),
    })
}

fn put_request(rt: &impl Print, request: Request) -> io::Result<()> {
    match request {
        Request::Crd { name, level, digit } => println!(rt;
            "0 CRD {name} {} {} {}",
            Given(level),
            Given(digit),
            first_bytes(Heading::DIRECTORY, 1, level, digit)
        ),
        Request::Wrs {
            lifetime,
            level,
            digit,
            name,
        } => println!(rt;
            "0 WRS {lifetime} {} {} {name} {}",
            Given(level),
            Given(digit),
            first_bytes(Heading::SIMPLE, lifetime, level, digit)
        ),
        Request::Rds {
            from,
            name,
            first,
            count,
        } => println!(rt;
            "0 RDS {} {} {}",
            Named(from, name),
            Given(first),
            Given(count)
        ),
        Request::Cpy {
            from,
            old,
            new,
            lifetime,
            level,
            digit,
        } => println!(rt;
            "0 CPY {} {new} {} {} {}",
            Named(from, old),
            Given(lifetime),
            Given(level),
            Given(digit)
        ),
        Request::Dup {
            from,
            old,
            to,
            new,
            digit,
        } => println!(rt;
            "0 DUP {} {} {}",
            Named(from, old),
            Named(to, new),
            Given(digit)
        ),
        Request::Chn { old, link } => println!(rt; "0 CHN {old} {link}"),
        Request::Del { first, count } => println!(rt; "0 DEL {first} {count}"),
        Request::Dst { first, count } => println!(rt; "0 DST {first} {count}"),
        Request::Dpr { name, code } => println!(rt; "0 DPR {name} {code}"),
        Request::Lst { from, name } => println!(rt; "0 LST {}", Named(from, name)),
        Request::LstBase => println!(rt; "0 LST ."),
        Request::LstTree { from, name, depth } => println!(rt;
            "0 LST* {} {depth}",
            Named(from, name)
        ),
        Request::LstBaseTree { depth } => println!(rt; "0 LST* . {depth}"),
        Request::Rewrite { name } => println!(rt; "0 WRS* {name}"),
    }
}

fn put_line(rt: &impl Print, line: &[u8]) -> io::Result<()> {
    match read_line(line) {
        Ok(request) => put_request(rt, request),
        Err(
            Refusal {
                number,
                place,
                link,
            },
        ) => println!(rt; "{} {place} {link}", u32::from(number)),
    }
}

// A line ends before byte 10, the last one at the latest where the text ends. What cannot be written of one is left out, and the next
// one is tried.
fn put_lines(rt: &impl Print, text: &[u8]) {
    if text.is_empty() {
        return;
    }
    for line in text
        .strip_suffix(b"\n")
        .unwrap_or(text)
        .split(|b| *b == b'\n')
    {
        put_line(rt, line).unwrap_or(());
    }
}

// Reads until the buffer is full, the input ends or cannot be read: how many bytes were read. A `while`: one read may bring
// any part of what is left.
fn read_full(input: &mut impl Read, buf: &mut [u8]) -> usize
    ensures { result ≤ length buf.new }
{
    let mut n = 0;
    while n < buf.len() {
        let more = input.read(&mut buf[n..]).unwrap_or(0);
        if more == 0 {
            break;
        }
        n += more;
    }
    n
}

// Where its output cannot be written it says nothing of that.
fn main(rt: HostRuntime) {
    let mut buf = [0; MOST];
    let n = read_full(&mut rt.stdin(), &mut buf);
    put_lines(&rt, &buf[..n]);
}
