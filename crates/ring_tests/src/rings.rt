// Which rings there are.
use ring_records::Refusal;
use ring_world::World;

#[test]
fn rings_have_2_to_16_nodes(rt: HostRuntime) {
    for (n, capacity, made) in [
        (1, 65_536, false),
        (2, 65_536, true),
        (16, 4_096, true),
        (17, 65_536, false),
        (2, 4_095, false),
        (2, 1_048_576, true),
        (2, 1_048_577, false),
    ] {
        match World::new(rt.alloc(), n, true, capacity) {
            Ok(world) => {
                assert!(rt; made);
                assert!(rt; world.size() == n);
                world.end();
            }
            Err(refusal) => {
                assert!(rt; !made);
                assert!(rt; refusal == Refusal::BadNumber);
            }
        }
    }
}
