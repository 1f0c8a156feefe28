//! The tree of a text.

ghost use Rattle.std.specs.Prelude.{◌≤◌, length, IfOk};
ghost use Rattle.compact_types.specs.Refusals.{Decides, HasOneAnswer};
ghost use Rattle.gml_text.specs.declared.limits.TheConstants.{MOST_BYTES};
ghost use Rattle.gml_text.specs.Faults.{FirstFault};
ghost use Rattle.gml_text.specs.Grammar.{IsReadable};
ghost use Rattle.gml_text.specs.Texts.{Spells};

use crate::fault::GmlFault;
use crate::reader::read;
use crate::tree::Tree;
use compact_types::Refusal;
use std::alloc::Global;

/// The tree of a text of at most 64 MiB, or its first fault; offsets count from 0.
pub fn read_tree(alloc: Global, bytes: &[u8]) -> Result<Tree, Refusal<GmlFault>>
    requires { length bytes.now ≤ MOST_BYTES }
    ensures decides { Decides result (Spells bytes.now) (FirstFault bytes.now) }

    // What callers may rely on in every tree that is read.
    ensures readable { IfOk result (λ tree. IsReadable tree) }
{
    read(alloc, bytes)
}

/// A law: every text has exactly one tree or exactly one first fault, and never both.
pub fn has_one_answer(text: &[u8])
    ensures { HasOneAnswer (Spells text.now) (FirstFault text.now) }
{
    let _ = text;
}

#[cfg(test)]
mod tests {
    use super::*;
    use crate::fault::GmlKind;
    use crate::tree::Value;
    use std::process::Abort;
    use std::test::Fail;

    fn both<T: Send + Sync>(_: &T) {}

    /// The first fault of a short text; `None` where it has a tree.
    fn fault_of(rt: &impl Abort, alloc: Global, text: &[u8]) -> Option<GmlFault> {
        assert!(rt; text.len() < 1000);
        match read_tree(alloc, text) {
            Ok(tree) => {
                both(&tree);
                None
            }
            Err(Refusal::Fault(fault)) => Some(fault),
            Err(Refusal::NoMemory) => {
                assert!(rt; false, "no memory");
                None
            }
        }
    }

    #[test]
    fn first_faults(rt: HostRuntime) {
        let faults = [
            (b"a b".as_slice(), 2, GmlKind::BadValue),
            (b"a 1.2.3".as_slice(), 2, GmlKind::BadNumeral),
            (b"a \"x".as_slice(), 2, GmlKind::OpenString),
            (b"1a 2".as_slice(), 0, GmlKind::BadKey),
            (b"a-b 1".as_slice(), 0, GmlKind::BadKey),
            (b"graph [".as_slice(), 6, GmlKind::OpenList),
            (b"]".as_slice(), 0, GmlKind::StrayClose),
            (b"a #c".as_slice(), 2, GmlKind::BadValue),
            (b"a 1#c".as_slice(), 2, GmlKind::BadNumeral),
            (b"a[b 1]#c\nd[e\t".as_slice(), 13, GmlKind::BadValue),
            (b"a[b[c 1]d[#]]".as_slice(), 9, GmlKind::OpenList),
            (b"a".as_slice(), 1, GmlKind::BadValue),
            (b"a]".as_slice(), 1, GmlKind::BadValue),
            (b"a 1\"".as_slice(), 3, GmlKind::BadKey),
        ];
        for (text, at, kind) in faults {
            assert_eq!(rt;
                fault_of(&rt, rt.alloc(), text),
                Some(GmlFault { at, kind })
            );
        }
    }

    #[test]
    fn depths(rt: HostRuntime) -> Result<(), Fail> {
        let mut text = Vec::new(rt.alloc());
        for _ in 0..64 {
            text.extend_from_slice(b"a[".as_slice())?;
        }
        let mut whole = Vec::from_slice(rt.alloc(), text.as_slice())?;
        for _ in 0..64 {
            whole.push(b']')?;
        }
        assert_eq!(rt; fault_of(&rt, rt.alloc(), whole.as_slice()), None);
        text.extend_from_slice(b"a[".as_slice())?;
        let deep = GmlFault {
            at: 129,
            kind: GmlKind::TooDeep,
        };
        assert_eq!(rt; fault_of(&rt, rt.alloc(), text.as_slice()), Some(deep));
        Ok(())
    }

    /// Each pair of the tree: its key, where its value stands, and the value.
    fn show(alloc: Global, tree: &Tree, shown: &mut Vec<u8>) -> Result<(), Fail> {
        for pair in tree.pairs.as_slice() {
            shown.extend_from_slice(pair.key.as_slice())?;
            shown.extend_from_slice(format!(in alloc; " {} ", pair.at)?.as_bytes())?;
            match &pair.value {
                Value::Whole(word) => show_word(b"whole ", word.as_slice(), shown)?,
                Value::Real(word) => show_word(b"real ", word.as_slice(), shown)?,
                Value::Text(inside) => show_word(b"text ", inside.as_slice(), shown)?,
                Value::Inner(inner) => {
                    shown.extend_from_slice(b"[ ")?;
                    show(alloc, inner, shown)?;
                    shown.extend_from_slice(b"] ")?;
                }
            }
        }
        Ok(())
    }

    fn show_word(kind: &[u8], word: &[u8], shown: &mut Vec<u8>) -> Result<(), Fail> {
        shown.extend_from_slice(kind)?;
        shown.extend_from_slice(word)?;
        shown.push(b' ')?;
        Ok(())
    }

    #[test]
    fn trees(rt: HostRuntime) -> Result<(), Fail> {
        let alloc = rt.alloc();
        let texts = [
            (b"".as_slice(), b"".as_slice()),
            (b"# no pair".as_slice(), b"".as_slice()),
            (b"a 1".as_slice(), b"a 2 whole 1 ".as_slice()),
            (
                b"_a1[]B\"\xc3\xb6#]\n\"c -.5E+07 d +0 #x\n".as_slice(),
                b"_a1 3 [ ] B 6 text \xc3\xb6#]\n c 15 real -.5E+07 d 25 whole +0 ".as_slice(),
            ),
            (
                b"a[b 1]#x\nc 5.\n#y\nd\t2".as_slice(),
                b"a 1 [ b 4 whole 1 ] c 11 real 5. d 19 whole 2 ".as_slice(),
            ),
        ];
        for (text, want) in texts {
            assert!(rt; text.len() < 1000);
            let tree = read_tree(alloc, text)?;
            let mut shown = Vec::new(alloc);
            show(alloc, &tree, &mut shown)?;
            assert_eq!(rt; shown.as_slice(), want);
        }
        Ok(())
    }
}
