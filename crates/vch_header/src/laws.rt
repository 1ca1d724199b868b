ghost use Rattle.std.specs.Prelude.{◌≡◌, ◌⊎◌, ◌++◌, [], ℕ, List, take};
ghost use Rattle.vch_header.specs.Dispositions.{voucher_bits, IsKnown};
ghost use Rattle.vch_header.specs.Fields.{Fields, Fits, spelling};
ghost use Rattle.vch_header.specs.Headers.{StartsWithHeader};
ghost use Rattle.vch_header.specs.Carrying.{carried_by, header_of};
ghost use Rattle.vch_header.specs.Messages.{IsTranslation, IsRefusedAt};
ghost use Rattle.vch_header.specs.declared.carried.Carried.{Carried};
ghost use Rattle.vch_header.specs.declared.fault.MessageFault.{MessageFault};

/// Bytes begin with at most one header. So `decode` reads what `encode` wrote, whatever follows, and `encode` of what
/// `decode` reads is the first 24 bytes.
pub fn one_header()
    ensures again { (h : Fields) (rest : List ℕ) → Fits h → StartsWithHeader (spelling h ++ rest) h }
    ensures first { (bytes : List ℕ) (h : Fields) → StartsWithHeader bytes h → spelling h ≡ take 24 bytes }
    ensures one { (bytes : List ℕ) (g h : Fields) → StartsWithHeader bytes g → StartsWithHeader bytes h → g ≡ h }
{}

/// The spelling of a header begins no other header's spelling.
pub fn spellings()
    ensures { (g h : Fields) (rest : List ℕ) → Fits g → Fits h →
        spelling h ≡ spelling g ++ rest → (g ≡ h) × (rest ≡ []) }
{}

/// The header of a `send` has a known disposition, and is that `send` again.
pub fn sent_again()
    ensures known { (c : Carried) → IsKnown (voucher_bits (header_of c).bits) }
    ensures again { (c : Carried) → carried_by (header_of c) ≡ c }
{}

/// A text has one translation or one first fault, and never both.
pub fn one_translation()
    ensures some { (text : List ℕ) → ((out : List ℕ) × IsTranslation text out) ⊎
        ((line : ℕ) × (why : MessageFault) × IsRefusedAt text line why) }
    ensures one { (text a b : List ℕ) → IsTranslation text a → IsTranslation text b → a ≡ b }
    ensures apart { (text out : List ℕ) (line : ℕ) (why : MessageFault) →
        IsTranslation text out → IsRefusedAt text line why → ⊥ }
    ensures one_fault { (text : List ℕ) (m n : ℕ) (a b : MessageFault) →
        IsRefusedAt text m a → IsRefusedAt text n b → (m ≡ n) × (a ≡ b) }
{}
