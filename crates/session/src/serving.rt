// What the program sludgeline does: a conversation, or what its argument asks.
ghost use Rattle.std.specs.Prelude.{◌≡◌, None, IfSome};
ghost use Rattle.vectors.specs.Figures.{house, figures_of};
ghost use Rattle.plant.specs.Record.{made};

use crate::channel::{Failure, tell, write_all};
use crate::talking::talk;
use plant::Made;
use reading::read_number;
use std::env::FillError;
use std::io::writer;
use std::rt::{Clock, Env};
use vectors::{Figures, HOUSE};

// With no argument a conversation on a record of the house set, with --figures and nine numbers on a record of these. Of one word, --help
// and --version are known. A read or a write that fails ends it, and is told on standard error.
pub fn serve<R: Env + Input + Print + Eprint + Alloc + Clock>(rt: &R) {
    if let Err(f) = serve_word(rt) {
        tell(rt, f);
    }
}

// A conversation, or what the first word asks for; anything else is told on standard error.
fn serve_word<R: Env + Input + Print + Eprint + Clock>(rt: &R) -> Result<(), Failure> {
    if !has_word(rt, 1) {
        return serve_on(rt, None);
    }
    if is_word(rt, b"--figures") {
        return serve_figures(rt);
    }
    if !has_word(rt, 2) {
        if is_word(rt, b"--help") {
            return write_all(rt, &mut writer(rt), HELP);
        }
        if is_word(rt, b"--version") {
            return write_all(rt, &mut writer(rt), b"sludgeline 0.18.0\n");
        }
    }
    let _ = eprintln!(rt; "sludgeline: unknown argument (--help tells what there is)");
    Ok(())
}

// A conversation on a record of the nine numbers behind --figures. What is no permitted set is told on standard error, and nothing is read.
fn serve_figures<R: Env + Input + Print + Eprint + Clock>(rt: &R) -> Result<(), Failure> {
    let numbers = nine_numbers(rt);
    if numbers.is_some() {
        return serve_on(rt, numbers);
    }
    let _ = eprintln!(rt;
        "sludgeline: --figures takes nine numbers: ixb ixe nxc ni naa nbac fxi fch fli"
    );
    Ok(())
}

// A conversation on the record of the numbers, unless these are no permitted set.
fn serve_on<R: Input + Print + Eprint + Clock>(
    rt: &R,
    numbers: Option<[u64; 9]>,
) -> Result<(), Failure> {
    let made = made_of(numbers);
    if made.refusal.is_none() {
        return talk(rt, made.plant);
    }
    let _ = eprintln!(rt;
        "sludgeline: each figure is 0 to 10000; nxc, naa and fch + fli are at least 1"
    );
    Ok(())
}

// The record that a conversation begins with: of the figures with these numbers, or of the house set.
fn made_of(numbers: Option<[u64; 9]>) -> Made
    ensures house { numbers ≡ None → result ≡ made house }
    ensures wished { IfSome numbers (λ n. result ≡ made (figures_of n)) }
{
    match numbers {
        Some(n) => plant::make(Figures::from(n)),
        None => plant::make(HOUSE),
    }
}

// The nine words behind the first, where they are nine numbers as a line has them, and the last. The numbers are put in the order of the
// words; no contract says so, since std says nothing of an argument's bytes.
fn nine_numbers(rt: &impl Env) -> Option<[u64; 9]> {
    if has_word(rt, 11) {
        return None;
    }
    let mut numbers = [0; 9];
    for i in 0..9 {
        numbers[i] = number_at(rt, i + 2)?;
    }
    Some(numbers)
}

// The number that the word at this place is. A longer word than the buffer is none.
fn number_at(rt: &impl Env, place: usize) -> Option<u64> {
    let mut word = [0u8; 20];
    let n = rt.arg(place, &mut word).ok()?;
    read_number(&word[..n])
}

// Whether the program was started with a word at this place. Its own name is at 0.
fn has_word(rt: &impl Env, place: usize) -> bool {
    let mut word = [0u8; 16];
    !matches!(rt.arg(place, &mut word), Err(FillError::NotPresent))
}

// Whether the first word is this one. A longer word than the buffer is none that is known.
fn is_word(rt: &impl Env, known: &[u8]) -> bool {
    let mut word = [0u8; 16];
    matches!(rt.arg(1, &mut word), Ok(n) if &word[..n] == known)
}

// What the program is, the forms and the refusals, on one screen.
const HELP: &[u8] =
    b"sludgeline: the link between ASM1 and ADM1 on one plant record, a call a line\n\
usage: sludgeline [--figures N..] < CALLS > ANSWERS    or --help, or --version\n\
N.. is nine figures: ixb ixe nxc ni naa nbac fxi fch fli; without, the house set\n\
(receive F..)   an ASM1 vector into the sludge tank\n\
(feed N)        N thousandths of the sludge, converted, into the digester\n\
(settle N F..)  the digester as a solver proposes it, N mg of COD as gas\n\
(return N)      N thousandths of the digester, converted, into the reject tank\n\
(release N)     N thousandths of reject handed out; (draw N): to a reactor\n\
(recycle N)     N thousandths of the reject tank back into the sludge tank\n\
(accept N F..)  an ASM1 vector with N ticks of nitrite into the sludge tank\n\
(preview FORM)  what one of these would answer; nothing is changed\n\
F is (name N), in the order below; a missing column is zero. COD and oxygen in\n\
mg; sno snh snd xnd sin cn in ticks of 0.0001 mg N; salk sic in mmol.\n\
receive, accept: si ss xi xs xbh xba xp so sno snh snd xnd salk\n\
settle: si ssu saa sfa sva sbu spro sac sh2 sch4 xi xc xch xpr xli xsu xaa xfa\n\
\x20\x20xc4 xpro xac xh2 sin sic co cn\n\
Each line is answered (ok ..), or (no N) and nothing is changed, where\n\
\x201 a column of the record, 3 one handed over or nitrite, is above its ceiling\n\
\x202 k is not 1 to 1000; 4, 5 a feed, a return lacks nitrogen for its inerts\n\
\x207, 8, 9 the proposal's COD, TKN, co or cn is not the digester's\n\
10 a tank's column would pass its ceiling: 10^12 mg or mmol, 10^16 ticks\n\
11 the line is no form, 12 the answer's buffer short, 15 figures not permitted\n\
The last line is (held cod N tkn N oxygen N nitrate N). Without it the session\n\
failed: standard error says why, unless a signal ended it.\n";
