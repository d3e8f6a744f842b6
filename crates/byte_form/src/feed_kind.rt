//! The byte form of an address, in which feeds carry it. Mirrored kinds have none.

ghost use Rattle.std.specs.Prelude.{◌≡◌, ℕ, ◌+◌, ◌*◌, ◌^◌, ◌≤◌, length, if◌then◌else◌, Some, ◌==◌, nat_eq};
ghost use Rattle.std.specs.Option.{option_map};
ghost use Rattle.byte_form.specs.Bytes.{bytes_of, number_of};
ghost use Rattle.std.proofs.Common.{arith, rules};
ghost use Rattle.byte_form.specs.BytesLemmas.{read_back};

use address::{AddressKind, Ipv4, Ipv6, Port};

/// A kind whose addresses have a byte form: the address's number in `width` bytes, the highest first.
pub trait FeedKind: AddressKind {
    ghost width: { ℕ };

    /// How many bytes an address takes.
    fn width() -> usize
        ensures { result ≡ width };

    /// The address that the bytes write, or none unless there are `width` of them.
    fn from_bytes(bytes: &[u8]) -> Option<Self>
        ensures { option_map Self.AddressKind.num result ≡ number_of width bytes.now };

    /// Writes the address into a slice of `width` bytes. It writes nothing into another, and answers false.
    // Whether it was written is all there is to tell: no error would say more.
    fn write_bytes(self, out: &mut [u8]) -> bool
        ensures answer { result ≡ (length out.old == width) }
        ensures after { out.new ≡ (if nat_eq (length out.old) width then bytes_of width (Self.AddressKind.num self) else out.old) };

    /// Each address has a form, and each `width` bytes are the form of an address.
    ghost whole: { Self.AddressKind.last + 1 ≡ 256 ^ width };

    ghost short: { width ≤ 16 };

    /// What the bytes of an address write is that address.
    ghost back: { (x : Self) → number_of width (bytes_of width (Self.AddressKind.num x)) ≡ Some (Self.AddressKind.num x) };
}

// Each kind writes its own integer, of another width: the trait and its laws are what they share.
impl FeedKind for Port {
    ghost width = { 2 };

    ghost whole = { Prim.search rules };

    ghost short = { Prim.search rules };

    ghost back = { λ x. read_back _ x.value (Prim.omega (arith, x.ok)) };

    fn width() -> usize {
        2
    }

    fn from_bytes(bytes: &[u8]) -> Option<Self> {
        let bytes = <[u8; 2]>::try_from(bytes).ok()?;
        Some(Port::new(u16::from_be_bytes(bytes)))
    }

    #[tactic(auto, unfolding(crate::specs::Bytes::bytes_of))]
    fn write_bytes(self, out: &mut [u8]) -> bool {
        if out.len() != 2 {
            return false;
        }
        out.copy_from_slice(&self.value().to_be_bytes());
        true
    }
}

impl FeedKind for Ipv4 {
    ghost width = { 4 };

    ghost whole = { Prim.search rules };

    ghost short = { Prim.search rules };

    ghost back = { λ x. read_back _ x.value (Prim.omega (arith, x.ok)) };

    fn width() -> usize {
        4
    }

    fn from_bytes(bytes: &[u8]) -> Option<Self> {
        let bytes = <[u8; 4]>::try_from(bytes).ok()?;
        Some(Ipv4::new(u32::from_be_bytes(bytes)))
    }

    #[tactic(auto, unfolding(crate::specs::Bytes::bytes_of))]
    fn write_bytes(self, out: &mut [u8]) -> bool {
        if out.len() != 4 {
            return false;
        }
        out.copy_from_slice(&self.value().to_be_bytes());
        true
    }
}

impl FeedKind for Ipv6 {
    ghost width = { 16 };

    ghost whole = { Prim.search rules };

    ghost short = { Prim.search rules };

    ghost back = { λ x. read_back 16 (x.high * 2 ^ 64 + x.low) (Prim.omega (arith, x.high_ok, x.low_ok)) };

    fn width() -> usize {
        16
    }

    fn from_bytes(bytes: &[u8]) -> Option<Self> {
        let bytes = <[u8; 16]>::try_from(bytes).ok()?;
        Some(Ipv6::from(u128::from_be_bytes(bytes)))
    }

    fn write_bytes(self, out: &mut [u8]) -> bool {
        if out.len() != 16 {
            return false;
        }
        // Each half by itself: by way of a `u128` it is slower.
        let (high, low) = out.split_at_mut(8);
        high.copy_from_slice(&self.high().to_be_bytes());
        low.copy_from_slice(&self.low().to_be_bytes());
        true
    }
}
