use super::devices::{Sink, Source};
use super::{JSON_REPORT, REPORT, STORED};
use crate::same::same;
use tt_workload::{Options, run_alone};

#[test]
fn one_byte_at_a_time(rt: HostRuntime) {
    let options = Options::usual();
    assert!(rt; options.fits());
    assert!(rt;
        !Options {
            batch: 0,
            rounds: 0,
            closed: false,
            why: false,
            diff: false,
            dry: false,
            json: false,
        }
        .fits()
    );
    let mut reader = Source::slow(STORED.as_bytes(), usize::MAX);
    let mut writer = Sink::new(rt.alloc(), 1, usize::MAX);
    let outcome = run_alone(rt.alloc(), &mut reader, &mut writer, &options);
    assert!(rt; outcome.is_ok());
    assert!(rt; writer.written.as_slice() == REPORT.as_bytes());
    same(&rt, &writer.flushed, &REPORT.len());
}

#[test]
fn json_lines(rt: HostRuntime) {
    let options = Options {
        json: true,
        ..Options::usual()
    };
    let mut reader = Source::slow(STORED.as_bytes(), usize::MAX);
    let mut writer = Sink::new(rt.alloc(), 1, usize::MAX);
    let outcome = run_alone(rt.alloc(), &mut reader, &mut writer, &options);
    assert!(rt; outcome.is_ok());
    assert!(rt; writer.written.as_slice() == JSON_REPORT.as_bytes());
}
