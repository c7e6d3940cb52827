//! Outlines by example: what is answered, what is refused, and with which words.
#![tactic(auto)]

#[cfg(test)]
mod tests {
    use outline::drafts::Draft;
    use outline::entries::Entry;
    use outline::faults::{Cause, OutlineFault};
    use std::alloc::Global;
    use std::process::Abort;
    use std::test::Fail;
    use tree::trees::Tree;

    // The draft of a text, or the fault of its first line that is refused.
    fn read(heap: Global, text: &str) -> Result<Draft, OutlineFault> {
        let mut draft = Draft::new(heap);
        for line in text.split('\n') {
            draft = draft.add(line)?;
        }
        Ok(draft)
    }

    fn refused(rt: &impl Abort, heap: Global, text: &str, words: &str) -> Result<(), Fail> {
        match read(heap, text) {
            Ok(_) => Err(Fail::new("it was read")),
            Err(fault) => {
                let said = format!(in heap; "{fault}")?;
                assert!(rt; said.as_str() == words, "{}", words);
                Ok(())
            }
        }
    }

    #[test]
    fn answers(rt: HostRuntime) -> Result<(), Fail> {
        let outline = read(rt.alloc(), "Pump\n  Motor\n  Valve \r\n\nTank")?.finish()?;
        let pump = Entry { number: 0 };
        assert_eq!(rt; outline.height(pump)?, 2);
        assert_eq!(rt; outline.child_count(pump)?, 2);
        assert_eq!(rt; outline.child(pump, 1)?, Entry { number: 2 });
        assert!(rt; outline.text(Entry { number: 2 })? == "Valve");
        assert!(rt; outline.child(pump, 2).is_err());
        assert_eq!(rt; outline.roots().len(), 2);
        Ok(())
    }

    #[test]
    fn indents(rt: HostRuntime) -> Result<(), Fail> {
        let heap = rt.alloc();
        refused(
            &rt,
            heap,
            "Pump\n\tMotor",
            "line 2: expected an indent of spaces, found a tab",
        )?;
        refused(
            &rt,
            heap,
            "Pump\n\n   Motor",
            "line 3: expected an indent of two spaces a level, found 3",
        )?;
        refused(
            &rt,
            heap,
            "  Pump",
            "line 1: expected an indent of at most 0 spaces here, found 2",
        )?;
        refused(
            &rt,
            heap,
            "Pump\n  Motor\n      Fan",
            "line 3: expected an indent of at most 4 spaces here, found 6",
        )
    }

    #[test]
    fn levels(rt: HostRuntime) -> Result<(), Fail> {
        let heap = rt.alloc();
        let mut draft = Draft::new(heap);
        let mut indent = String::new(heap);
        for _ in 0..64 {
            let line = format!(in heap; "{indent}x")?;
            draft = draft.add(line.as_str())?;
            indent.push_str("  ")?;
        }
        let line = format!(in heap; "{indent}x")?;
        assert_eq!(rt;
            draft.add(line.as_str()).err(),
            Some(OutlineFault {
                line: 65,
                cause: Cause::Deep,
            })
        );
        Ok(())
    }

    #[test]
    fn entries(rt: HostRuntime) -> Result<(), Fail> {
        let mut draft = Draft::new(rt.alloc());
        for _ in 0..4096 {
            draft = draft.add("x")?;
        }
        assert_eq!(rt;
            draft.add("x").err(),
            Some(OutlineFault {
                line: 4097,
                cause: Cause::Full,
            })
        );
        Ok(())
    }
}
