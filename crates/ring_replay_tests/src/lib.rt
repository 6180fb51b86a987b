// Replays that the program's own sample cannot show: rings of several sizes, and runs that end early.
#![tactic(auto)]

#[cfg(test)]
mod tests {
    use ring_playback::replaying::replay;
    use script::faults::{Expected, LineFault};
    use std::process::Abort;
    use std::test::Fail;

    // Seven saves fill a file of capacity 8, the eighth is refused, and so is the last of eight restores.
    static CALLS: &str =
        "write 8 1\nsave\nwrite 8 2\nsave\nwrite 8 3\nsave\nwrite 8 4\nsave\nwrite 8 5\nsave\nwrite 8 6\nsave\nwrite 8 7\nsave\nsave\nread 24\nrestore\nread 24\nrestore\nrestore\nread 24\nsave\nrestore\nrestore\nrestore\nread 24\nrestore\nread 8\nrestore\nrestore\n";

    static ANSWERS: &str =
        "ok\nok\nok\nok\nok\nok\nok\nok\nok\nok\nok\nok\nok\nok\nrefused 2 File at 8\nword 7\nok\nword 6\nok\nok\nword 4\nok\nok\nok\nok\nword 2\nok\nword 2\nok\nrefused 3 File at 1\nframe 1 ins 0 0 0 0 0 0 0 0 locals 0 0 0 0 0 0 0 0\nouts 1 0 0 0 0 0 0 0\nagrees with a flat file\n";

    // Every call and every refusal, on a ring that overflows, underflows and fills its store.
    static SAMPLE: &str =
        "ring 3 fixed 2 1 flat 2\ndepth\nspare\nrestore\nwrite 8 5\nsave\nread 24\nread 8\nwrite 24 9\nwrite 16 7\nwrite 15 4294967295\nsave\nwrite 9 3\nsave\nread 25\nsave\nspare\ndepth\nread 7\nwrite 32 1\nwrite 8 6\nrestore\nread 9\nrestore\nread 16\nread 24\nrestore\nread 8\nsave\nwrite 8 9\nsave\nwrite 31 4294967295\ndepth\n";

    static SAMPLE_ANSWERS: &str =
        "depth 1\nspare 3\nrefused 3 File at 1\nok\nok\nword 5\nword 0\nok\nok\nok\nok\nok\nok\nword 3\nrefused 2 File at 4\nspare 0\ndepth 4\nrefused 1 File at 7\nrefused 1 File at 32\nok\nok\nword 3\nok\nword 7\nword 9\nok\nword 9\nok\nok\nok\nok\ndepth 3\nframe 1 ins 0 0 0 0 0 0 0 0 locals 0 0 0 0 0 0 0 0\nframe 2 ins 9 0 0 0 0 0 0 0 locals 0 0 0 0 0 0 0 0\nframe 3 ins 9 0 0 0 0 0 0 4294967295 locals 0 0 0 0 0 0 0 0\nouts 0 0 0 0 0 0 0 0\nagrees with a flat file\noverflows 2 underflows 2 spilled 4 filled 2\n";

    // The trace is read to its end, and prints the text.
    fn prints(rt: &(impl Abort + AllocGlobal), trace: &str, text: &str) -> Result<(), Fail> {
        let played = replay(rt.alloc(), trace.as_bytes())?;
        assert_eq!(rt; played.fault, None);
        assert_eq!(rt; played.text.as_str(), text);
        Ok(())
    }

    // The same calls on any ring of capacity 8 have the same answers, and counts of its own.
    fn counts_are(rt: &(impl Abort + AllocGlobal), setup: &str, counts: &str) -> Result<(), Fail> {
        let trace = format!(in rt.alloc(); "{setup}\n{CALLS}")?;
        let text = format!(in rt.alloc(); "{ANSWERS}{counts}\n")?;
        prints(rt, trace.as_str(), text.as_str())
    }

    #[test]
    fn sample_is_answered(rt: HostRuntime) -> Result<(), Fail> {
        prints(&rt, SAMPLE, SAMPLE_ANSWERS)
    }

    #[test]
    fn fixed_rings_move_as_defined(rt: HostRuntime) -> Result<(), Fail> {
        for (setup, counts) in [
            (
                "ring 2 fixed 1 1 flat 7",
                "overflows 8 underflows 8 spilled 8 filled 8",
            ),
            (
                "ring 3 fixed 2 1 flat 6",
                "overflows 3 underflows 6 spilled 6 filled 6",
            ),
            (
                "ring 4 fixed 31 3 flat 5",
                "overflows 3 underflows 3 spilled 8 filled 8",
            ),
            (
                "ring 5 fixed 2 31 flat 4",
                "overflows 2 underflows 1 spilled 4 filled 4",
            ),
        ] {
            counts_are(&rt, setup, counts)?;
        }
        Ok(())
    }

    #[test]
    fn adaptive_rings_move_as_defined(rt: HostRuntime) -> Result<(), Fail> {
        for (setup, counts) in [
            (
                "ring 2 adaptive flat 7",
                "overflows 8 underflows 8 spilled 8 filled 8",
            ),
            (
                "ring 3 adaptive flat 6",
                "overflows 5 underflows 5 spilled 8 filled 8",
            ),
            (
                "ring 4 adaptive flat 5",
                "overflows 3 underflows 3 spilled 5 filled 5",
            ),
            (
                "ring 5 adaptive flat 4",
                "overflows 3 underflows 3 spilled 4 filled 4",
            ),
        ] {
            counts_are(&rt, setup, counts)?;
        }
        Ok(())
    }

    #[test]
    fn refused_file_is_all_that_is_printed(rt: HostRuntime) -> Result<(), Fail> {
        for (trace, refusal) in [
            ("flat 257\nsave\n", "refused 9 Setup at 257\n"),
            ("ring 1 fixed 0 0 flat 0\n", "refused 4 Setup at 1\n"),
            ("ring 33 adaptive flat 1\n", "refused 4 Setup at 33\n"),
            ("ring 2 fixed 0 0 flat 999\n", "refused 7 Setup at 0\n"),
            ("ring 2 fixed 31 32 flat 999\n", "refused 8 Setup at 32\n"),
            (
                "ring 2 adaptive flat 256\nsave\n",
                "refused 9 Setup at 257\n",
            ),
        ] {
            prints(&rt, trace, refusal)?;
        }
        Ok(())
    }

    #[test]
    fn answers_before_a_bad_line_are_kept(rt: HostRuntime) -> Result<(), Fail> {
        let played = replay(rt.alloc(), b"ring 2 adaptive flat 0\nsave\nread 08\nsave\n")?;
        assert_eq!(rt; played.text.as_str(), "refused 2 File at 1\n");
        let fault = LineFault {
            line: 3,
            expected: Expected::Request,
        };
        assert_eq!(rt; played.fault, Some(fault));
        Ok(())
    }

    #[test]
    fn empty_trace_lacks_its_first_line(rt: HostRuntime) -> Result<(), Fail> {
        let played = replay(rt.alloc(), b"")?;
        assert_eq!(rt; played.text.as_str(), "");
        let fault = LineFault {
            line: 1,
            expected: Expected::AnySetup,
        };
        assert_eq!(rt; played.fault, Some(fault));
        Ok(())
    }
}
