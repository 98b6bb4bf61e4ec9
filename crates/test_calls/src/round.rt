// The same water several times round the works: what comes back from the digester is recycled and fed again.
use crate::list::{Run, called, report, start};
use crate::write::tanks;
use plant::{Call, Request};

// One receive, four rounds of feed, return, recycle and release, and the four balances.
pub fn rounds() {
    let mut run = called(start(vectors::HOUSE), works());
    for _ in 0..4 {
        run = round(run);
    }
    report(run);
}

// Sludge with every column in it, oxygen and nitrate among them.
pub fn works() -> Request {
    Request {
        sludge: [
            101, 40003, 2007, 30001, 5003, 307, 1009, 503, 7000001, 900007, 500009, 80021, 77,
        ],
        ..Request::from(Call::Receive)
    }
}

// Most of the water goes round; a tenth of what is left in the reject tank leaves the works.
fn round(run: Run) -> Run {
    let fed = called(run, Request::from(Call::Feed(900)));
    let returned = called(fed, Request::from(Call::Return(950)));
    let recycled = called(returned, Request::from(Call::Recycle(800)));
    test_show::text(b"round: ");
    tanks(recycled.plant);
    test_show::text(b"\n");
    called(recycled, Request::from(Call::Release(100)))
}
