// The answer to three texts and what is recorded with it, written line by line.
use crate::tables::Tables;
use printing::line::Line;
use running::texts::Texts;
use std::io;
use std::io::Write;

// It fails only where `out` does: no heap is used.
pub fn tell<W: Write>(texts: &Texts<'_>, out: &mut W) -> io::Result<()> {
    let mut tables = Tables::new();
    let answer = tables.check(texts);
    writeln!(out, "{}", Line(answer))?;
    tables.view(*texts, answer).write_recorded(out)
}

#[cfg(test)]
mod tests {
    use super::tell;
    use running::texts::Texts;
    use std::io;

    const TEXTS: Texts<'static> = Texts {
        theory: b"(sort Pass) (ctor first () Pass) (ctor renew (Pass) Pass) (pred Child (Pass)) \
            (rule c0 () (Child first)) (rule c1 ((Child ?p)) (Child (renew ?p)))",
        goals: b"(var x Pass) (goal g (Child x))",
        proof: b"(var y Pass) (step 0 c0 ()) (hyp 1 (Child y)) (step 2 c1 (1)) \
            (induct 3 x (Child x) ((0) (2 y))) (result g 3)",
    };

    #[test]
    fn tells_facts(rt: HostRuntime) -> io::Result<()> {
        let mut out = Vec::new(rt.alloc());
        tell(&TEXTS, &mut out)?;
        let said = str::from_utf8(&out).unwrap_or("");
        let mut lines = said.lines();
        assert_eq!(rt; lines.next(), Some("(accepted 4 1 1 1 1 0 0)"));
        assert_eq!(rt; lines.next(), Some("(fact 0 (Child first) () 0 () ())"));
        assert_eq!(rt; lines.last(), Some("(missing [])"));
        Ok(())
    }
}
