// Tests of calls that are written as lines: in buffers of several lengths, with a pattern in them, each kind of call and its preview,
// with no column, some, and all at 2^64 - 1. It tells the refusal, the line, whether the bytes behind the newline kept their values, and
// whether the line is read back as the call and the vector that it takes.
#![tactic(auto)]

use plant::{Call, Request};
use reading::Asked;
use test_show::places::digester::{CN, SCH4, SI, SPRO, XC};
use vectors::{Milligrams, Ticks};

// The largest number.
const MOST: u64 = 18446744073709551615;

// Buffers of no byte, of one, around 1,025, and longer: the first bytes of a space, and a look behind them afterwards.
fn main() {
    let mut space = [0u8; 1100];
    for n in [0, 1, 1024, 1025, 1026, 1100] {
        test_show::fill(&mut space);
        if let Some(buf) = space.get_mut(..n) {
            all(buf);
        }
        test_show::number(b"behind the buffer of ", n as u64);
        test_show::behind(&space, n);
    }
}

// Calls and their previews, with vectors of each kind and the ends of the numbers.
fn all(buf: &mut [u8]) {
    with_vectors(buf, [0; 13], [0; 26]);
    with_vectors(buf, some_sludge(), some_digester());
    with_vectors(buf, [MOST; 13], [MOST; 26]);
    for k in [0, 1000, MOST] {
        numbers(buf, k);
    }
    handed_back(buf);
}

// Columns that are zero and columns that are not, at both ends and in the middle.
fn some_sludge() -> [u64; 13] {
    [1, 0, 0, 30000, 0, 0, 0, 0, 100000000, 0, 0, 0, 7]
}

// The same of a digester vector.
fn some_digester() -> [u64; 26] {
    let columns = [
        (SI, 1),
        (SPRO, 60),
        (SCH4, 90),
        (XC, 1000000000001),
        (CN, 250),
    ];
    test_show::with([0; 26], &columns)
}

// The three calls that take a vector.
fn with_vectors(buf: &mut [u8], sludge: [u64; 13], digester: [u64; 26]) {
    for call in [
        Call::Receive,
        Call::Settle(Milligrams(0)),
        Call::Settle(Milligrams(MOST)),
        Call::Accept(Ticks(0)),
        Call::Accept(Ticks(MOST)),
    ] {
        both(
            buf,
            Request {
                call,
                sludge,
                digester,
            },
        );
    }
}

// The five calls that take a number alone; the vectors beside them are not written.
fn numbers(buf: &mut [u8], k: u64) {
    for call in [
        Call::Feed(k),
        Call::Return(k),
        Call::Release(k),
        Call::Recycle(k),
        Call::Draw(k),
    ] {
        both(buf, some_request(call));
    }
}

// A request with such vectors.
fn some_request(call: Call) -> Request {
    Request {
        call,
        sludge: some_sludge(),
        digester: some_digester(),
    }
}

// A call and its preview.
fn both(buf: &mut [u8], request: Request) {
    for preview in [false, true] {
        written(buf, Asked { request, preview });
    }
}

// The refusal, the line, and a look behind it: whether the bytes there kept their values.
fn written(buf: &mut [u8], asked: Asked) {
    test_show::fill(buf);
    let w = composing::write_line(buf, asked);
    let length = w.unwrap_or(0);
    test_show::number(b"refusal ", w.err().map_or(0, |r| r.number()));
    test_show::number(b" in ", buf.len() as u64);
    test_show::number(b" bytes ", length as u64);
    let part = writing::filled_part(buf, length);
    test_show::part(b"", part);
    read_back(part);
    test_show::behind(buf, length);
}

// The part that the writer itself hands back, and a look behind it afterwards.
fn handed_back(buf: &mut [u8]) {
    test_show::fill(buf);
    let asked = Asked {
        request: some_request(Call::Receive),
        preview: true,
    };
    let k = test_show::part(b"handed back", composing::filled_line(buf, asked).0);
    test_show::behind(buf, k);
}

// What a line without its newline is read as.
fn read_back(part: &[u8]) {
    if let Some((_, line)) = part.split_last() {
        tell_form(reading::read_line(line));
    }
}

// A call with its number and its vector, or no form.
fn tell_form(asked: Option<Asked>) {
    let Some(a) = asked else {
        test_show::text(b" NO FORM");
        return;
    };
    if a.preview {
        test_show::text(b" preview");
    }
    tell_call(a.request.call);
    test_show::asm1(a.request.sludge);
    test_show::digester(a.request.digester);
}

// A call's word and number, a receive's word alone.
fn tell_call(call: Call) {
    match call {
        Call::Receive => test_show::text(b" receive"),
        Call::Feed(k) => test_show::number(b" feed ", k),
        Call::Settle(g) => test_show::number(b" settle ", g.0),
        Call::Return(k) => test_show::number(b" return ", k),
        Call::Release(k) => test_show::number(b" release ", k),
        Call::Recycle(k) => test_show::number(b" recycle ", k),
        Call::Draw(k) => test_show::number(b" draw ", k),
        Call::Accept(n) => test_show::number(b" accept ", n.0),
    }
}
