//! Patterns, and the names of run files.
use mid_logger::Pattern;
use std::test::Fail;

#[test]
fn patterns_by_the_rule(rt: HostRuntime) {
    for (text, limited, is_pattern) in &[
        ("run%05d.mid", false, true),
        ("%05d", false, true),
        ("run.mid", false, false),
        ("run%5d.mid", false, false),
        ("run%05d-%05d.mid", false, false),
        ("run%05d%.mid", false, false),
        ("run %05d.mid", false, false),
        ("run%05dsub%04d.mid", true, true),
        ("run%05dsub%04d.mid", false, false),
        ("run%05d.mid", true, false),
        ("sub%04drun%05d.mid", true, false),
    ] {
        assert_eq!(rt; Pattern::new(text, *limited).is_ok(), *is_pattern);
    }
}

#[test]
fn names_of_runs(rt: HostRuntime) -> Result<(), Fail> {
    for (run, name) in &[
        (1, "run00001.mid"),
        (99999, "run99999.mid"),
        (123456, "run123456.mid"),
    ] {
        match Pattern::new("run%05d.mid", false) {
            Ok(pattern) => assert_eq!(rt; pattern.name(*run, 0).as_slice(), name.as_bytes()),
            Err(_) => assert!(rt; false),
        }
    }
    let pattern = Pattern::new("run%05dsub%04d.mid", true)?;
    assert_eq!(rt;
        pattern.name(1, 42).as_slice(),
        "run00001sub0042.mid".as_bytes()
    );
    Ok(())
}
