//! Laws of the texts of certificates.

ghost use Rattle.std.specs.Prelude.{ℕ, List, ◌++◌};
ghost use Rattle.compact_types.specs.Refusals.{HasOneAnswer};
ghost use Rattle.gml_text.specs.declared.tree.Tree.{Tree};
ghost use Rattle.gml_text.specs.Texts.{Spells};
ghost use Rattle.cert_text.specs.declared.tree.CertNode.{CertNode};
ghost use Rattle.cert_text.specs.declared.tree.CertTree.{CertTree};
ghost use Rattle.cert_text.specs.Certificates.{IsBeforeLine, IsCertificate, IsPitch};
ghost use Rattle.cert_text.specs.Faults.{FirstCertFault};
ghost use Rattle.cert_text.specs.Loads.{IsCertTree};
ghost use Rattle.cert_text.specs.Texts.{certificate_text};

/// Every text ends with one certificate, of one pitch and one tree, or has one first fault, and
/// never both.
pub fn texts_have_one_answer()
    ensures { (text : List ℕ) → HasOneAnswer {T = ℕ × CertTree}
        (λ found. IsCertificate text found.0 found.1.nodes) (FirstCertFault text) }
{}

/// The text of a certificate that follows whole lines, whatever they are, is read as that pitch and
/// those entries: no line of it begins as a head line but its first.
pub fn printed_certificates_are_read()
    ensures { (front : List ℕ) (pitch : ℕ) (nodes : List CertNode) →
        IsBeforeLine front → IsPitch pitch → IsCertTree nodes →
        IsCertificate (front ++ certificate_text pitch nodes) pitch nodes }
{}

/// The lines of a certificate are comments: whole lines keep the tree that they spell with a
/// certificate after them.
pub fn certificates_are_comments()
    ensures { (text : List ℕ) (tree : Tree) (pitch : ℕ) (nodes : List CertNode) →
        IsBeforeLine text → IsPitch pitch → IsCertTree nodes → Spells text tree →
        Spells (text ++ certificate_text pitch nodes) tree }
{}
