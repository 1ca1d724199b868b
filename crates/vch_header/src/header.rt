ghost use Rattle.std.specs.Prelude.{◌≡◌, ◌≢◌, ◌↔◌, ℕ, IfOk, IsOk, Some};
ghost use Rattle.vch_header.specs.Dispositions as dispositions;
ghost use Rattle.vch_header.specs.Headers.{IsHeader, made};

use crate::disposition::{Disposition, voucher_bits};
use crate::fault::HeaderFault;
use std::marker::Model;

/// A header whose voucher disposition is 0, 17 or 19. The other bits of its first number are kept and not looked at.
#[derive(Clone, Copy, Debug, PartialEq, Eq)]
pub struct Header {
    bits: u32,
    size: u32,
    remote: u32,
    local: u32,
    voucher: u32,
    id: u32,
}

impl Model for Header {
    ghost use Rattle.vch_header.specs.Fields.{Fields};
    ghost use Rattle.vch_header.specs.Dispositions.{voucher_bits, IsKnown};

    ghost Value = { Fields };

    ghost view = { λ h. record {
      bits = h.bits;
      size = h.size;
      remote = h.remote;
      local = h.local;
      voucher = h.voucher;
      id = h.id;
    } };

    ghost invariant = { λ h. IsKnown (voucher_bits h.bits) };

    ghost inverse = { λ h. record {
      bits = h.bits;
      size = h.size;
      remote = h.remote;
      local = h.local;
      voucher = h.voucher;
      id = h.id;
    } };
}

impl Header {
    /// The header with these numbers, in the order of its bytes.
    ///
    /// `Disposition` comes exactly where bits 16 to 20 of the first number are none of 0, 17 and 19, and has their number.
    /// `Short` never comes here.
    pub fn of(
        bits: u32,
        size: u32,
        remote: u32,
        local: u32,
        voucher: u32,
        id: u32,
    ) -> Result<Header, HeaderFault>
        ensures found { IfOk result (λ h. h ≡ record {
          bits = bits;
          size = size;
          remote = remote;
          local = local;
          voucher = voucher;
          id = id;
        }) }
        ensures exact { result ≡ made (record {
          bits = bits;
          size = size;
          remote = remote;
          local = local;
          voucher = voucher;
          id = id;
        }) }
        ensures only { IsOk result ↔ dispositions.IsKnown (dispositions.voucher_bits bits) }
        ensures disposition { (n : ℕ) → (result ≡ Err (HeaderFault.Disposition n)) ↔
            ((n ≡ dispositions.voucher_bits bits) × (dispositions.IsKnown n → ⊥)) }
        ensures never_short { (have : ℕ) → result ≢ Err (HeaderFault.Short have) }
    {
        let number = voucher_bits(bits);
        match Disposition::of(number) {
            Some(_) => Ok(Header {
                bits,
                size,
                remote,
                local,
                voucher,
                id,
            }),
            None => Err(HeaderFault::Disposition { number }),
        }
    }

    /// Its numbers have 32 bits, and its disposition is 0, 17 or 19. It does nothing.
    pub fn know(&self)
        ensures { IsHeader self.now }
    {
        let _known = &self.bits;
        let _first = (self.bits(), self.size(), self.remote());
        let _last = (self.local(), self.voucher(), self.id());
    }

    /// The first number, with the dispositions of the ports.
    pub fn bits(&self) -> u32
        ensures { result ≡ self.now.bits }
    {
        self.bits
    }

    /// The message's size as the sender said it. Nothing here looks at it.
    pub fn size(&self) -> u32
        ensures { result ≡ self.now.size }
    {
        self.size
    }

    /// The port that the message goes to.
    pub fn remote(&self) -> u32
        ensures { result ≡ self.now.remote }
    {
        self.remote
    }

    /// The port for a reply. Nothing here looks at it.
    pub fn local(&self) -> u32
        ensures { result ≡ self.now.local }
    {
        self.local
    }

    /// The sender's name of the voucher, which means nothing at disposition 0.
    pub fn voucher(&self) -> u32
        ensures { result ≡ self.now.voucher }
    {
        self.voucher
    }

    /// The message's id.
    pub fn id(&self) -> u32
        ensures { result ≡ self.now.id }
    {
        self.id
    }

    /// What becomes of the voucher port's name.
    pub fn disposition(&self) -> Disposition
        ensures { dispositions.disposition_of (dispositions.voucher_bits self.now.bits) ≡ Some result }
    {
        match Disposition::of(voucher_bits(self.bits)) {
            Some(disposition) => disposition,
            None => unreachable!(),
        }
    }
}
