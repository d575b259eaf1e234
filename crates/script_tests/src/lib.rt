//! Scripts with what they answer and write: every code, their order, and the edges of each field.
#![tactic(auto)]

#[cfg(test)]
mod tests {
    use refusal::Refusal;
    use script::{MAX_SCRIPT, Run, RunAnswer, refusal_line, run_script};
    use std::test::Fail;
    use text::Fault;

    // What the output holds before a run, so that untouched bytes are seen.
    const UNTOUCHED: u8 = 0xAA;

    struct Case {
        script: &'static [u8],
        room: usize,
        lines: u32,
        code: Option<u8>,
        output: &'static [u8],
    }

    static CASES: [Case; 38] = [
        // the worked example, and scripts of no line and one
        Case {
            script: b"W,1F8,0000BEEF\nR,1F8\nR,1FC\nR,200\n",
            room: 64,
            lines: 3,
            code: Some(1),
            output: b"R,1F8,0000BEEF\nR,1FC,01000000\n",
        },
        Case {
            script: b"",
            room: 64,
            lines: 0,
            code: None,
            output: b"",
        },
        Case {
            script: b"R,1FC",
            room: 64,
            lines: 1,
            code: None,
            output: b"R,1FC,01000000\n",
        },
        Case {
            script: b"R,1F4\n",
            room: 64,
            lines: 1,
            code: None,
            output: b"R,1F4,02000000\n",
        },
        Case {
            script: b"T,100000,FFFFFF,FF\nR,1FC\n",
            room: 64,
            lines: 2,
            code: None,
            output: b"R,1FC,01000000\n",
        },
        // 1: offsets
        Case {
            script: b"R,002\n",
            room: 64,
            lines: 0,
            code: Some(1),
            output: b"",
        },
        Case {
            script: b"W,200,00000000\n",
            room: 64,
            lines: 0,
            code: Some(1),
            output: b"",
        },
        // 2: settings; the scratchpad keeps what an earlier line wrote
        Case {
            script: b"W,018,00000400\nW,130,00000500\n",
            room: 64,
            lines: 1,
            code: Some(2),
            output: b"",
        },
        Case {
            script: b"W,010,02000000\nW,128,04000000\n",
            room: 64,
            lines: 1,
            code: Some(2),
            output: b"",
        },
        Case {
            script: b"W,1F8,00000007\nR,1F8\nW,010,01000000\nR,1F8\n",
            room: 64,
            lines: 2,
            code: Some(2),
            output: b"R,1F8,00000007\n",
        },
        // 6: an empty line, an unknown kind, too few and too many fields
        Case {
            script: b"R,1FC\n\nR,1FC\n",
            room: 64,
            lines: 1,
            code: Some(6),
            output: b"R,1FC,01000000\n",
        },
        Case {
            script: b"r,1FC\n",
            room: 64,
            lines: 0,
            code: Some(6),
            output: b"",
        },
        Case {
            script: b"RR,1FC\n",
            room: 64,
            lines: 0,
            code: Some(6),
            output: b"",
        },
        Case {
            script: b"R\n",
            room: 64,
            lines: 0,
            code: Some(6),
            output: b"",
        },
        Case {
            script: b"R,1FC,\n",
            room: 64,
            lines: 0,
            code: Some(6),
            output: b"",
        },
        Case {
            script: b"T,1,000000\n",
            room: 64,
            lines: 0,
            code: Some(6),
            output: b"",
        },
        // 7: an empty field, byte 13, lower case, other widths
        Case {
            script: b"R,\n",
            room: 64,
            lines: 0,
            code: Some(7),
            output: b"",
        },
        Case {
            script: b"R,1FC\r\n",
            room: 64,
            lines: 0,
            code: Some(7),
            output: b"",
        },
        Case {
            script: b"R,1fc\n",
            room: 64,
            lines: 0,
            code: Some(7),
            output: b"",
        },
        Case {
            script: b"R,01FC\n",
            room: 64,
            lines: 0,
            code: Some(7),
            output: b"",
        },
        Case {
            script: b"W,1F8,BEEF\n",
            room: 64,
            lines: 0,
            code: Some(7),
            output: b"",
        },
        Case {
            script: b"T,1,00000,00\n",
            room: 64,
            lines: 0,
            code: Some(7),
            output: b"",
        },
        Case {
            script: b"T,1,000000,0G\n",
            room: 64,
            lines: 0,
            code: Some(7),
            output: b"",
        },
        // 7: counts
        Case {
            script: b"T,0,000000,00\n",
            room: 64,
            lines: 0,
            code: Some(7),
            output: b"",
        },
        Case {
            script: b"T,01,000000,00\n",
            room: 64,
            lines: 0,
            code: Some(7),
            output: b"",
        },
        Case {
            script: b"T,100001,000000,00\n",
            room: 64,
            lines: 0,
            code: Some(7),
            output: b"",
        },
        Case {
            script: b"T,1000000,000000,00\n",
            room: 64,
            lines: 0,
            code: Some(7),
            output: b"",
        },
        Case {
            script: b"T,A,000000,00\n",
            room: 64,
            lines: 0,
            code: Some(7),
            output: b"",
        },
        // 8: outputs of 0, 14, 15, 29 and 30 bytes
        Case {
            script: b"T,1,000000,00\nW,1F8,00000001\nR,1F8\n",
            room: 0,
            lines: 2,
            code: Some(8),
            output: b"",
        },
        Case {
            script: b"R,1FC\n",
            room: 14,
            lines: 0,
            code: Some(8),
            output: b"",
        },
        Case {
            script: b"R,1FC\n",
            room: 15,
            lines: 1,
            code: None,
            output: b"R,1FC,01000000\n",
        },
        Case {
            script: b"R,1FC\nR,1FC\n",
            room: 29,
            lines: 1,
            code: Some(8),
            output: b"R,1FC,01000000\n",
        },
        Case {
            script: b"R,1FC\nR,1FC\n",
            room: 30,
            lines: 2,
            code: None,
            output: b"R,1FC,01000000\nR,1FC,01000000\n",
        },
        // the order: 6 before 7, 7 before 1, 1 before 2, 1 and 2 before 8
        Case {
            script: b"W,xyz\n",
            room: 64,
            lines: 0,
            code: Some(6),
            output: b"",
        },
        Case {
            script: b"W,200,0000beef\n",
            room: 64,
            lines: 0,
            code: Some(7),
            output: b"",
        },
        Case {
            script: b"W,01A,00000500\n",
            room: 64,
            lines: 0,
            code: Some(1),
            output: b"",
        },
        Case {
            script: b"R,1FC\nR,200\n",
            room: 15,
            lines: 1,
            code: Some(1),
            output: b"R,1FC,01000000\n",
        },
        Case {
            script: b"R,1FC\nW,018,00000700\n",
            room: 15,
            lines: 1,
            code: Some(2),
            output: b"R,1FC,01000000\n",
        },
    ];

    #[test]
    fn scripts(rt: HostRuntime) -> Result<(), Fail> {
        for case in CASES.iter() {
            let mut output = vec![in rt.alloc(); UNTOUCHED; case.room]?;
            let run = run_script(case.script, &mut output);
            assert_eq!(rt; run.lines, case.lines);
            assert_eq!(rt; run.bytes, case.output.len());
            assert_eq!(rt; run.stopped.map(Fault::code), case.code);
            assert!(rt; output.starts_with(case.output));
            assert!(rt;
                output
                    .iter()
                    .skip(case.output.len())
                    .all(|b| *b == UNTOUCHED)
            );
        }
        Ok(())
    }

    // 65,536 empty lines are a script, whose first line is refused; one byte more is none, and that comes first.
    #[test]
    fn longest_script(rt: HostRuntime) -> Result<(), Fail> {
        let mut script = vec![in rt.alloc(); b'\n'; MAX_SCRIPT]?;
        let mut output = vec![in rt.alloc(); UNTOUCHED; 15]?;
        let run = run_script(&script, &mut output);
        let form = Run {
            lines: 0,
            bytes: 0,
            stopped: Some(Fault::Form),
        };
        assert_eq!(rt; run, form);
        script.push(b'\n')?;
        let run = run_script(&script, &mut output);
        let length = Run {
            lines: 0,
            bytes: 0,
            stopped: Some(Fault::Length),
        };
        assert_eq!(rt; run, length);
        assert!(rt; output.iter().all(|b| *b == UNTOUCHED));
        Ok(())
    }

    // 65,536 bytes of output hold the lines of 4,369 reads, and the next read is refused.
    #[test]
    fn most_reads(rt: HostRuntime) -> Result<(), Fail> {
        let mut script = Vec::new(rt.alloc());
        for _ in 0..4_369u32 {
            script.extend_from_slice(b"R,1FC\n")?;
        }
        let mut output = vec![in rt.alloc(); UNTOUCHED; 65_536]?;
        let run = run_script(&script, &mut output);
        let whole = Run {
            lines: 4_369,
            bytes: 65_535,
            stopped: None,
        };
        assert_eq!(rt; run, whole);
        script.extend_from_slice(b"R,1FC\n")?;
        let run = run_script(&script, &mut output);
        let full = Run {
            lines: 4_369,
            bytes: 65_535,
            stopped: Some(Fault::Full),
        };
        assert_eq!(rt; run, full);
        Ok(())
    }

    // What C sees: 0 where nothing stopped a run, else the number of what did.
    #[test]
    fn answers(rt: HostRuntime) -> Result<(), Fail> {
        let stops = [
            (None, 0),
            (Some(Fault::Access(Refusal::Offset)), 1),
            (Some(Fault::Access(Refusal::Setting)), 2),
            (Some(Fault::Length), 5),
            (Some(Fault::Form), 6),
            (Some(Fault::Field), 7),
            (Some(Fault::Full), 8),
        ];
        for (stopped, code) in stops {
            let answer = RunAnswer::from(Run {
                lines: 3,
                bytes: 30,
                stopped,
            });
            assert_eq!(rt; answer.lines, 3);
            assert_eq!(rt; answer.bytes, 30);
            assert_eq!(rt; answer.code, code);
        }
        Ok(())
    }

    #[test]
    fn refusal_lines(rt: HostRuntime) -> Result<(), Fail> {
        let none = Run {
            lines: 3,
            bytes: 0,
            stopped: None,
        };
        let last = refusal_line(rt.alloc(), none.into())?;
        assert_eq!(rt; last.as_str(), "");
        let fourth = Run {
            lines: 3,
            bytes: 30,
            stopped: Some(Fault::Access(Refusal::Offset)),
        };
        let last = refusal_line(rt.alloc(), fourth.into())?;
        assert_eq!(rt; last.as_str(), "E,4,1\n");
        let length = Run {
            lines: 0,
            bytes: 0,
            stopped: Some(Fault::Length),
        };
        let last = refusal_line(rt.alloc(), length.into())?;
        assert_eq!(rt; last.as_str(), "E,0,5\n");
        Ok(())
    }
}
