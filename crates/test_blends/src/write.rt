// Writes what a blend gives to standard output.
use plant::Plant;

// An example's name, then the refusal's number or 0, the sludge tank, and each thirteen columns of the loads' slice behind it.
pub fn example<const N: usize>(name: &[u8], p: Plant, loads: [u64; N], ks: &[u64]) {
    let mut loads = loads;
    test_show::text(name);
    match blends::blend(p, &mut loads, ks) {
        Ok(q) => given(0, q),
        Err(refusal) => given(refusal.number(), p),
    }
    left(&loads);
    test_show::text(b"\n");
}

fn given(n: u64, p: Plant) {
    test_show::number(b": ", n);
    test_show::text(b", sludge");
    test_show::asm1(p.sludge);
}

// What stands behind the last whole load follows as numbers.
fn left(loads: &[u64]) {
    let (whole, behind) = loads.as_chunks::<13>();
    for v in whole {
        test_show::text(b", load");
        test_show::asm1(*v);
    }
    for x in behind {
        test_show::number(b", behind ", *x);
    }
}

// Loads one behind the other, in a slice of N numbers; where N asks for more, it has zeros.
pub fn flat<const K: usize, const N: usize>(loads: [[u64; 13]; K]) -> [u64; N] {
    let mut c = [0; N];
    for (i, x) in c.iter_mut().enumerate() {
        if let Some(v) = loads.get(i / 13) {
            *x = v[i % 13];
        }
    }
    c
}
