// Feed: an ASM1 vector becomes a digester vector, in the five stages of document 01.
ghost use Rattle.std.specs.Prelude.{◌≡◌, ◌+◌, ◌-◌, ◌*◌, ◌/◌, ◌≤◌, leb};
ghost use Rattle.vectors.specs.Columns.{Below, asm1_ceilings};
ghost use Rattle.vectors.specs.Figures.{Permitted};
ghost use Rattle.columns.specs.Counts.{asm1_counts, digester_counts};
ghost use Rattle.interface.specs.Feed.{nitrate_rule, ceil, warn_of, stage1, stages, fed_vector, feed_taken, feed_asm1, feed_of};
ghost use Rattle.interface.specs.Structs.{Low, Demands, Leaves, AcidsHeld, InertsGiven, InertsHeld, RemainsHeld, StagesHeld};

use columns::{Asm1, Digester};
use refusals::Refusal;
use vectors::{Figures, Milligrams, Rate, Ticks, Unit, afforded, covering, nitrogen, share};

// What an accepted feed conversion gives: its vector and the numbers told. warn is a number, as stage 1 of document 01 makes it and as it
// is told.
#[derive(Clone, Copy)]
pub struct Fed {
    pub burnt: Milligrams,
    pub oxygen: Milligrams,
    pub nitrate: Ticks,
    pub warn: u64,
    pub vector: [u64; 26],
}

// The feed conversion. Refusal 4. It asks for a permitted set and a vector within its ceilings, which their types do not say
// (figures.rt and vector.rt of vectors).
pub fn feed_of(f: Figures, c: [u64; 13]) -> Result<Fed, Refusal>
    requires { (Permitted f) × (Below asm1_ceilings c) }
    ensures { result ≡ feed_of f c }
{
    let drawn = Drawn {
        figures: f,
        vector: Asm1::from(c),
    };
    drawn.convert()
}

// An ASM1 vector by its names, and the figures of its conversion, so that the sums fit.
#[derive(Clone, Copy)]
struct Drawn {
    figures: Figures,
    vector: Asm1,
    ghost permitted: { Permitted figures },
    ghost low: { Low vector },
}

// The conversion, and its stages in their order. A method that reads many columns names the vector and the figures once.
impl Drawn {
    // 4 where the amino acids cannot give what the inerts lack, else the five stages. D is at most A of itself (`BurntLaw`).
    fn convert(self) -> Result<Fed, Refusal>
        ensures { result ≡ feed_asm1 self.figures (asm1_counts self.vector) }
    {
        let demand = self.demand();
        let left = self.left(demand);
        let acids = self.acids(left);
        let pool = self.pool(acids);
        let inerts = self.inerts(acids, pool)?;
        let remains = self.remains(left, inerts);
        let staged = Staged {
            drawn: self,
            demand,
            left,
            inerts,
            remains,
        };
        Ok(staged.told())
    }

    // Stage 1, what oxygen and nitrate burn. Each path has one division: covered nitrate is reduced whole (`CoveredLaw`), and
    // `nitrate_cod` divides; where COD is short all of it is burnt (`ShortLaw`), and `reducible` divides.
    fn demand(self) -> Demand
        ensures { Demands result (stage1 nitrate_rule (asm1_counts self.vector)) }
    {
        let v = self.vector;
        let a = v.ss.plus(v.xs).plus(v.xbh).plus(v.xba);
        let o = v.so.min(a);
        let x = a.less(o);
        if is_covered(v.sno, x) {
            return Demand {
                o,
                r: v.sno,
                d: o.plus(nitrate_cod(v.sno)),
            };
        }
        let r = reducible(x);
        short_demand(a, o, r)
    }

    // Stage 1, what is left: D is taken from ss, then xs, xbh, xba.
    fn left(self, demand: Demand) -> Left
        requires { Demands demand (stage1 nitrate_rule (asm1_counts self.vector)) }
        ensures { Leaves result (stage1 nitrate_rule (asm1_counts self.vector)) }
    {
        let v = self.vector;
        let behind_ss = demand.d.less(v.ss);
        let behind_xs = behind_ss.less(v.xs);
        let behind_xbh = behind_xs.less(v.xbh);
        let co = v.so.less(demand.o);
        let cn = v.sno.less(demand.r);
        Left {
            ss: v.ss.less(demand.d),
            xs: v.xs.less(behind_ss),
            xbh: v.xbh.less(behind_xs),
            xba: v.xba.less(behind_xbh),
            co,
            cn,
            warn: warn_of(co, cn),
        }
    }

    // Stage 2.
    fn acids(self, left: Left) -> Acids
        requires { Leaves left (stage1 nitrate_rule (asm1_counts self.vector)) }
        ensures { AcidsHeld result (stages self.figures (asm1_counts self.vector)).s2 }
    {
        let saa = afforded(left.ss, self.vector.snd, self.figures.naa);
        Acids {
            saa,
            ssu: left.ss.less(saa),
        }
    }

    // Stage 3, the pool of organic nitrogen. Biomass counts as it was before stage 1.
    fn pool(self, acids: Acids) -> Ticks
        requires { AcidsHeld acids (stages self.figures (asm1_counts self.vector)).s2 }
        ensures { (result.0 ≡ (stages self.figures (asm1_counts self.vector)).P) × (result.0 ≤ 60000000000000000) }
    {
        let f = self.figures;
        let v = self.vector;
        let soluble = v.snd.less(nitrogen(f.naa, acids.saa));
        let biomass = nitrogen(f.ixb, v.xbh.plus(v.xba));
        let inert = nitrogen(f.ixe, v.xi.plus(v.xp));
        soluble.plus(v.xnd).plus(biomass).plus(inert)
    }

    // Stage 4. What pool and ammonia lack for the inerts, amino acids give; refusal 4 where they cannot.
    fn inerts(self, acids: Acids, pool: Ticks) -> Result<Inerts, Refusal>
        requires acids { AcidsHeld acids (stages self.figures (asm1_counts self.vector)).s2 }
        requires pool { (pool.0 ≡ (stages self.figures (asm1_counts self.vector)).P) × (pool.0 ≤ 60000000000000000) }
        ensures { InertsGiven result (stages self.figures (asm1_counts self.vector)).s4 (self.vector.xi.0 + self.vector.xp.0) }
    {
        let f = self.figures;
        let v = self.vector;
        let xi = share(v.xi.plus(v.xp), f.fxi, 10000);
        let q = nitrogen(f.ni, v.si.plus(xi));
        let m = q.less(pool.plus(v.snh));
        let g = giving(m, f.naa);
        if acids.saa < g {
            return Err(Refusal::FeedShort);
        }
        let over = nitrogen(f.naa, g).less(m);
        Ok(Inerts {
            xi,
            saa: acids.saa.less(g),
            ssu: acids.ssu.plus(g),
            pool: pool.less(q).plus(over),
            ammonia: v.snh.less(q.less(pool)),
        })
    }

    // Stage 5.
    fn remains(self, left: Left, inerts: Inerts) -> Remains
        requires { (Leaves left (stage1 nitrate_rule (asm1_counts self.vector))) × (InertsHeld inerts (stages self.figures (asm1_counts self.vector)).s4 (self.vector.xi.0 + self.vector.xp.0)) }
        ensures { RemainsHeld result (stages self.figures (asm1_counts self.vector)).s5 }
    {
        let f = self.figures;
        let v = self.vector;
        let particulate = left.xs.plus(left.xbh).plus(left.xba).plus(v.xi).plus(v.xp);
        let all = particulate.less(inerts.xi);
        let xc = afforded(all, inerts.pool, f.nxc);
        let rest = all.less(xc);
        let xch = share(rest, f.fch, f.fch + f.fli);
        Remains {
            xc,
            xch,
            xli: rest.less(xch),
            sin: inerts.ammonia.plus(inerts.pool).less(nitrogen(f.nxc, xc)),
        }
    }
}

// The results of all stages of a vector that refusal 4 does not meet.
#[derive(Clone, Copy)]
struct Staged {
    drawn: Drawn,
    demand: Demand,
    left: Left,
    inerts: Inerts,
    remains: Remains,
    ghost demands: { Demands demand (stage1 nitrate_rule (asm1_counts drawn.vector)) },
    ghost held: { StagesHeld left inerts remains (drawn.vector.xi.0 + drawn.vector.xp.0) (stages drawn.figures (asm1_counts drawn.vector)) },
}

// The answer of an accepted conversion.
impl Staged {
    // What it tells, with its vector.
    fn told(self) -> Fed
        ensures { result ≡ feed_taken (asm1_counts self.drawn.vector) (stages self.drawn.figures (asm1_counts self.drawn.vector)) }
    {
        Fed {
            burnt: self.demand.d,
            oxygen: self.demand.o,
            nitrate: self.demand.r,
            warn: self.left.warn,
            vector: <[u64; 26]>::from(self.fed_vector()),
        }
    }

    // The digester vector. All columns that no stage names are zero.
    fn fed_vector(self) -> Digester
        ensures { digester_counts result ≡ fed_vector (asm1_counts self.drawn.vector) (stages self.drawn.figures (asm1_counts self.drawn.vector)) }
    {
        Digester {
            si: self.drawn.vector.si,
            ssu: self.inerts.ssu,
            saa: self.inerts.saa,
            sfa: Milligrams(0),
            sva: Milligrams(0),
            sbu: Milligrams(0),
            spro: Milligrams(0),
            sac: Milligrams(0),
            sh2: Milligrams(0),
            sch4: Milligrams(0),
            xi: self.inerts.xi,
            xc: self.remains.xc,
            xch: self.remains.xch,
            xpr: Milligrams(0),
            xli: self.remains.xli,
            xsu: Milligrams(0),
            xaa: Milligrams(0),
            xfa: Milligrams(0),
            xc4: Milligrams(0),
            xpro: Milligrams(0),
            xac: Milligrams(0),
            xh2: Milligrams(0),
            sin: self.remains.sin,
            sic: self.drawn.vector.salk,
            co: self.left.co,
            cn: self.left.cn,
        }
    }
}

// o, r and D of stage 1.
#[derive(Clone, Copy)]
pub struct Demand {
    pub o: Milligrams,
    pub r: Ticks,
    pub d: Milligrams,
}

// What stage 1 leaves.
#[derive(Clone, Copy)]
pub struct Left {
    pub ss: Milligrams,
    pub xs: Milligrams,
    pub xbh: Milligrams,
    pub xba: Milligrams,
    pub co: Milligrams,
    pub cn: Ticks,
    pub warn: u64,
}

// What stage 2 gives.
#[derive(Clone, Copy)]
pub struct Acids {
    pub saa: Milligrams,
    pub ssu: Milligrams,
}

// What stage 4 gives: the digester's xi, saa and ssu, and the pool and the ammonia left.
#[derive(Clone, Copy)]
pub struct Inerts {
    pub xi: Milligrams,
    pub saa: Milligrams,
    pub ssu: Milligrams,
    pub pool: Ticks,
    pub ammonia: Ticks,
}

// What stage 5 gives.
#[derive(Clone, Copy)]
pub struct Remains {
    pub xc: Milligrams,
    pub xch: Milligrams,
    pub xli: Milligrams,
    pub sin: Ticks,
}

// The nitrate rule: 1 mg of COD reduces 3,500 ticks of nitrate.
const NITRATE: Rate = Rate {
    cod: 1,
    ticks: 3500,
};

// Whether COD covers nitrate: it can reduce all of it. This and the two below say the nitrate rule in the words of stage 1, and what the
// stage's sums need of it.
fn is_covered(n: Ticks, x: Milligrams) -> bool
    requires { (n.0 ≤ 10000000000000000) × (x.0 ≤ 4000000000000) }
    ensures { result ≡ leb (nitrate_rule.cod * n.0) (nitrate_rule.ticks * x.0) }
{
    NITRATE.covers(x, n)
}

// The nitrate that COD can reduce, rounded down.
fn reducible(x: Milligrams) -> Ticks
    requires { x.0 ≤ 4000000000000 }
    ensures { result.0 ≡ nitrate_rule.ticks * x.0 / nitrate_rule.cod }
{
    NITRATE.ticks_for(x)
}

// The COD that reducing nitrate burns, rounded up.
fn nitrate_cod(n: Ticks) -> Milligrams
    requires { n.0 ≤ 10000000000000000 }
    ensures { (result.0 ≡ ceil (nitrate_rule.cod * n.0) nitrate_rule.ticks) × (result.0 ≤ 4000000000000) }
{
    NITRATE.milligrams_for(n)
}

// The demand where COD is short for the nitrate: r of it is reduced, and all of the COD is burnt.
fn short_demand(a: Milligrams, o: Milligrams, r: Ticks) -> Demand
    ensures { (result.o ≡ o) × ((result.r ≡ r) × (result.d ≡ a)) }
{
    Demand { o, r, d: a }
}

// The amino acids that have the nitrogen m, rounded up. Most feeds lack none, and nothing is divided.
fn giving(m: Ticks, naa: u64) -> Milligrams
    requires { (1 ≤ naa) × ((naa ≤ 10000) × (m.0 ≤ 100000000000000000)) }
    ensures { result.0 ≡ ceil m.0 naa }
{
    if m == Ticks(0) {
        return Milligrams(0);
    }
    covering(m, naa)
}

// 1 where oxygen or nitrate is carried through, else 0.
fn warn_of(co: Milligrams, cn: Ticks) -> u64
    ensures { result ≡ warn_of co.0 cn.0 }
{
    if co == Milligrams(0) && cn == Ticks(0) {
        return 0;
    }
    1
}
