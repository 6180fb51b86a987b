// Replays that end early, which the program's own sample cannot show: its run has to end well.
#![tactic(auto)]

#[cfg(test)]
mod tests {
    use frames::flat::FlatFile;
    use playback::playing::play;
    use playback::replaying::{replay, replay_flat};
    use script::faults::{Expected, LineFault};
    use script::scripts::read_script;
    use std::test::Fail;

    #[test]
    fn refused_file_is_all_that_is_printed(rt: HostRuntime) -> Result<(), Fail> {
        let played = replay(rt.alloc(), b"flat 257\nsave\n")?;
        assert_eq!(rt; played.fault, None);
        assert_eq!(rt; played.text.as_str(), "refused 9 Setup at 257\n");
        Ok(())
    }

    #[test]
    fn answers_before_a_bad_line_are_kept(rt: HostRuntime) -> Result<(), Fail> {
        let played = replay(rt.alloc(), b"flat 2\nsave\nread 08\nsave\n")?;
        assert_eq!(rt; played.text.as_str(), "ok\n");
        let fault = LineFault {
            line: 3,
            expected: Expected::Request,
        };
        assert_eq!(rt; played.fault, Some(fault));
        Ok(())
    }

    #[test]
    fn empty_trace_lacks_its_first_line(rt: HostRuntime) -> Result<(), Fail> {
        let played = replay(rt.alloc(), b"")?;
        assert_eq!(rt; played.text.as_str(), "");
        let fault = LineFault {
            line: 1,
            expected: Expected::Setup,
        };
        assert_eq!(rt; played.fault, Some(fault));
        Ok(())
    }

    #[test]
    fn flat_file_meets_the_lines_after_the_first(rt: HostRuntime) -> Result<(), Fail> {
        let played = replay_flat(rt.alloc(), 2, b"save\nsave\nbye\n")?;
        assert_eq!(rt; played.text.as_str(), "ok\nrefused 2 File at 2\n");
        let fault = LineFault {
            line: 4,
            expected: Expected::Request,
        };
        assert_eq!(rt; played.fault, Some(fault));
        Ok(())
    }

    #[test]
    fn script_is_played_up_to_its_fault(rt: HostRuntime) -> Result<(), Fail> {
        let script = read_script(rt.alloc(), b"save\nread 24\nsaved\ndepth\n")?;
        let played = play(rt.alloc(), FlatFile::new(2).unwrap(), script)?;
        assert_eq!(rt; played.text.as_str(), "ok\nword 0\n");
        let fault = LineFault {
            line: 4,
            expected: Expected::Request,
        };
        assert_eq!(rt; played.fault, Some(fault));
        Ok(())
    }
}
