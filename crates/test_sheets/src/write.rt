// Writes what a sheet gives to standard output.
use plant::Plant;
use refusals::Refusal;
use sheets::{Finding, Unseen};
use vectors::{Milligrams, Millimoles, Ticks};

// An example's name, then the refusal, what is told, and the sludge tank behind it.
pub fn example(name: &[u8], p: Plant, sheet: [Finding<f32>; 13]) {
    let o = sheets::receive_sheet(p, sheet);
    test_show::text(name);
    told(o.told);
    test_show::text(b", sludge");
    test_show::asm1(o.plant.sludge);
    test_show::text(b"\n");
}

// The refusal's number, or 0, and what is told, which a refusal has zeros for.
fn told(t: Result<Unseen, Refusal>) {
    match t {
        Ok(u) => numbers(0, u),
        Err(refusal) => numbers(refusal.number(), NOTHING),
    }
}

const NOTHING: Unseen = Unseen {
    milligrams: Milligrams(0),
    ticks: Ticks(0),
    millimoles: Millimoles(0),
    unsampled: 0,
};

fn numbers(n: u64, u: Unseen) {
    test_show::number(b": ", n);
    test_show::number(b", unseen mg ", u.milligrams.0);
    test_show::number(b" ticks ", u.ticks.0);
    test_show::number(b" mmol ", u.millimoles.0);
    test_show::number(b" not sampled ", u.unsampled);
}

// A sheet by its entries that are not a zero.
pub fn sheet(entries: &[(usize, Finding<f32>)]) -> [Finding<f32>; 13] {
    test_show::with([Finding::Measured(0.0); 13], entries)
}
