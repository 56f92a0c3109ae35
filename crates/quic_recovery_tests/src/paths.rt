use quic_config::TransportConfig;
use quic_congestion::{NewReno, NewRenoConfig};
use quic_paths::{Address, PathData};
use quic_time::{Duration, Instant};

// Whether a path in place of this one goes where it is told to, keeps what was measured, and has
// nothing in flight.
fn next_keeps(path: &PathData<NewReno>) -> bool {
    match PathData::from_previous(Address(9), path, 1, Instant::from_nanos(7)) {
        Ok(next) => {
            let is_right = next.remote == Address(9)
                && next.generation() == 1
                && next.rtt.get() == Duration::from_millis(40)
                && next.in_flight.bytes() == 0;
            drop(next);
            is_right
        }
        Err(_) => false,
    }
}

#[test]
fn the_next_path_keeps_the_round_trip(rt: HostRuntime) {
    let config = TransportConfig::default();
    let now = Instant::from_nanos(0);
    let mut path = PathData::new(
        Address(0),
        true,
        None,
        0,
        now,
        &config,
        &NewRenoConfig::default(),
    );
    path.rtt
        .update(Duration::from_millis(0), Duration::from_millis(40));
    path.sent(1200, true);
    let is_right = next_keeps(&path);
    drop(path);
    assert!(rt; is_right);
}
