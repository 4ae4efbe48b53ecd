// Texts of refusals that no row prints.
use ring_records::{NodeNo, Refusal, Term};

#[test]
fn prints_refusals(rt: HostRuntime) {
    let alloc = rt.alloc();
    let node = NodeNo::new(2).expect(&rt, "a node");
    let most = Refusal::AckAhead(18_446_744_073_709_551_615);
    let rows = [
        (Refusal::OutOfMemory, 8, "no 8 memory"),
        (Refusal::Busy, 12, "no 12 busy"),
        (most, 14, "no 14 ahead 18446744073709551615"),
        (Refusal::OldLayout(2), 18, "no 18 oldlayout 2"),
        (Refusal::NoPlace, 20, "no 20 noplace"),
        (Refusal::Mismatch, 22, "no 22 mismatch"),
        (Refusal::Unlawful(12), 24, "no 24 unlawful 12"),
        (Refusal::Dropped(node), 27, "no 27 dropped 2"),
        (Refusal::TooFar(Term::last()), 28, "no 28 far 999999999"),
    ];
    for row in &rows {
        let (refusal, number, want) = *row;
        let text = format!(in alloc; "{refusal}").expect(&rt, "ample memory");
        assert!(rt; (refusal.number(), text.as_str()) == (number, want));
        drop(text);
    }
}
