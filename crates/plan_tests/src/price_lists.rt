use node_ids::{SplitNo, WorkerNo};
use price_certificate::Prices;

#[test]
fn prices_are_as_set(rt: HostRuntime) {
    let mut prices = Prices::new(rt.alloc(), 2, 1).expect(&rt, "no prices");
    assert!(rt; prices.splits() == 2 && prices.workers() == 1);
    prices.set_split(SplitNo::new(1), 91);
    prices.set_worker(WorkerNo::new(0), 30);
    let told = [
        prices.split(SplitNo::new(0)),
        prices.split(SplitNo::new(1)),
        prices.worker(WorkerNo::new(0)),
    ];
    assert_eq!(rt; told, [0, 91, 30]);
}
