// One tuple struct for each unit of document 01: a sum or a test of two units does not compile. What goes from one unit to the other
// stands here: `nitrogen`, `afforded`, `covering`, and the methods of `Rate`. (The totals add raw columns by their weights.)
ghost use Rattle.std.specs.Prelude.{◌≡◌, ℕ, ◌+◌, ◌-◌, ◌*◌, ◌/◌, ◌≤◌, min, leb};

// Milligrams of COD or of oxygen.
#[derive(Clone, Copy, PartialEq, Eq, PartialOrd, Ord)]
pub struct Milligrams(pub u64);

// Ticks of nitrogen or of nitrate: 0.0001 mg N.
#[derive(Clone, Copy, PartialEq, Eq, PartialOrd, Ord)]
pub struct Ticks(pub u64);

// Millimoles of alkalinity or of inorganic carbon.
#[derive(Clone, Copy, PartialEq, Eq, PartialOrd, Ord)]
pub struct Millimoles(pub u64);

// A unit by its counts, with the sum and the difference of two of them, written once. Order, equality and the smaller of two are derived.
pub trait Unit: Copy {
    ghost count: { Self → ℕ };

    // So many of the unit.
    fn of(n: u64) -> Self
        ensures { count result ≡ n };

    // How many they are.
    fn count(self) -> u64
        ensures { result ≡ count self };

    // The sum of the two. No Add: one for each unit would be twins.
    fn plus(self, other: Self) -> Self
        requires { count self + count other ≤ 1000000000000000000 }
        ensures { (count result ≡ count self + count other) × (count result ≤ 1000000000000000000) }
    {
        Self::of(self.count() + other.count())
    }

    // What is left when other is taken from it, or nothing.
    fn less(self, other: Self) -> Self
        ensures { (count result ≡ count self - count other) × (count result ≤ count self) }
    {
        Self::of(self.count().saturating_sub(other.count()))
    }
}

impl Unit for Milligrams {
    ghost count = { λ x. x.0 };

    fn of(n: u64) -> Milligrams {
        Milligrams(n)
    }

    fn count(self) -> u64 {
        self.0
    }
}

impl Unit for Ticks {
    ghost count = { λ x. x.0 };

    fn of(n: u64) -> Ticks {
        Ticks(n)
    }

    fn count(self) -> u64 {
        self.0
    }
}

// The nitrogen of COD, at a figure in ticks per milligram.
pub fn nitrogen(figure: u64, x: Milligrams) -> Ticks
    requires { (figure ≤ 10000) × (x.0 ≤ 100000000000000) }
    ensures { (result.0 ≡ figure * x.0) × (result.0 ≤ 10000 * x.0) }
{
    Ticks(figure * x.0)
}

// As much of x as m has nitrogen for, at a figure in ticks per milligram.
pub fn afforded(x: Milligrams, m: Ticks, figure: u64) -> Milligrams
    requires { 1 ≤ figure }
    ensures { (result.0 ≡ min x.0 (m.0 / figure)) × ((result.0 ≤ x.0) × (figure * result.0 ≤ m.0)) }
{
    Milligrams(x.0.min(m.0 / figure))
}

// As much COD as has the nitrogen m, rounded up, at a figure in ticks per milligram.
pub fn covering(m: Ticks, figure: u64) -> Milligrams
    requires { (1 ≤ figure) × ((figure ≤ 10000) × (m.0 ≤ 100000000000000000)) }
    ensures { result.0 ≡ (m.0 + (figure - 1)) / figure }
{
    Milligrams((m.0 + (figure - 1)) / figure)
}

// The share of x that is a parts of b.
pub fn share(x: Milligrams, a: u64, b: u64) -> Milligrams
    requires { ((1 ≤ b) × (a ≤ b)) × ((a ≤ 10000) × (x.0 ≤ 100000000000000)) }
    ensures { (result.0 ≡ a * x.0 / b) × (result.0 ≤ x.0) }
{
    Milligrams(a * x.0 / b)
}

// So many milligrams for so many ticks. Each method asks for the rest that it needs: as bounds of the struct the three would accept less.
#[derive(Clone, Copy)]
pub struct Rate {
    pub cod: u64,
    pub ticks: u64,
    pub ghost ticks_low: { ticks ≤ 1000000 },
}

impl Rate {
    // Whether x covers n.
    pub fn covers(self, x: Milligrams, n: Ticks) -> bool
        requires { (x.0 ≤ 4000000000000) × ((self.cod ≤ 1000) × (n.0 ≤ 10000000000000000)) }
        ensures { result ≡ leb (self.cod * n.0) (self.ticks * x.0) }
    {
        self.cod * n.0 <= self.ticks * x.0
    }

    // The ticks of x, rounded down.
    pub fn ticks_for(self, x: Milligrams) -> Ticks
        requires { (1 ≤ self.cod) × (x.0 ≤ 4000000000000) }
        ensures { result.0 ≡ self.ticks * x.0 / self.cod }
    {
        Ticks(self.ticks * x.0 / self.cod)
    }

    // The milligrams of n, rounded up.
    pub fn milligrams_for(self, n: Ticks) -> Milligrams
        requires { (1 ≤ self.ticks) × ((self.cod ≤ 1000) × (n.0 ≤ 10000000000000000)) }
        ensures { result.0 ≡ (self.cod * n.0 + (self.ticks - 1)) / self.ticks }
    {
        Milligrams((self.cod * n.0 + (self.ticks - 1)) / self.ticks)
    }
}
