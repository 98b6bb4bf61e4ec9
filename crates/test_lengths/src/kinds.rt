// Inputs with an answer of each kind, with refusals, with previews, and on records that are themselves refused.
use crate::tell;
use plant::Plant;
use test_show::places::asm1::SS;
use vectors::Figures;

// A session with an answer of each kind.
pub fn calls() {
    let session =
        b"(receive (ss 1000) (snh 90) (salk 4))\n(settle 0)\n(feed 1000)\n(release 500)\n(return 1000)\n(draw 333)\n(accept 100 (sno 20) (snh 7))\n(release 1000)\n(recycle 1000)\n";
    tell(b"calls", plant::fresh(), session);
    tell(
        b"numbers of many lengths",
        plant::fresh(),
        b"(receive (si 1) (ss 22) (xi 333) (xs 4444) (xbh 55555) (xba 666666) (xp 7777777) (so 88888888))\n(feed 1)\n(feed 1000)\n(return 999)\n(release 1)\n(release 1000)\n",
    );
}

// Lines that are refused, among them some that are no form.
pub fn refused() {
    tell(
        b"no form",
        plant::fresh(),
        b"(feed 00)\nfeed 1\n(feed 1) \n(x)\n",
    );
    tell(
        b"refused",
        plant::fresh(),
        b"(receive (ss 1000000000001))\n(feed 1001)\n(settle 1 (si 7))\n(receive (so 1) (so 2))\n",
    );
}

// Previews are answered as their calls, and leave the record.
pub fn previews() {
    tell(
        b"previews",
        plant::fresh(),
        b"(preview (receive (ss 5000)))\n(preview (receive (ss 5000)))\n(receive (ss 5000))\n(preview (release 1000))\n",
    );
    tell(
        b"a preview alone",
        plant::fresh(),
        b"(preview (receive (ss 123456)))\n",
    );
    tell(
        b"a preview in a preview",
        plant::fresh(),
        b"(preview (preview (feed 1)))\n",
    );
}

// Records of columns above their ceilings and of figures that are no permitted set: each answer is a refusal, and so is the held line.
pub fn records() {
    let above = Plant {
        reject: test_show::with([0; 13], &[(SS, 1000000000001)]),
        ..plant::fresh()
    };
    let outside = Plant {
        figures: Figures::from([0; 9]),
        ..plant::fresh()
    };
    for p in [above, outside] {
        tell(b"a refused record, no line", p, b"");
        tell(
            b"a refused record",
            p,
            b"(receive (ss 1))\n(preview (feed 1))\n(no form)\n",
        );
    }
}
