//! Contents by their digests, as stores give and take them.

ghost use Rattle.std.specs.Prelude.{◌≡◌, ◌≤◌, ℕ, List, Option, Err, None, is_some, IfOk, IfErr, IfSome, OnOk, OnErr, option_copied, option_map};
ghost use Rattle.sha2.specs.Sha256.{sha256};
ghost use Rattle.warg_store.specs.Contents.{Contents, TellsContents, LeavesContent, LeavesCleared, IsContentFault, IsStoreContentFault, with_content};
ghost use Rattle.warg_store.specs.Entry.{IsStoreFault};
ghost use Rattle.warg_store.specs.declared.error.StoreError.TheVariants.{IncorrectContent as IsIncorrect};

use crate::error::StoreError;
use std::alloc::Global;
use warg_hash::AnyHash;
use warg_values::Text;

/// Keeps contents by their digests.
///
/// A content whose bytes have another digest can't be read. An implementation in memory tells which bytes there are,
/// and each has a count of faults, by which a caller knows that the outside failed.
pub trait ContentStorage: Drop {
    /// How many calls failed so far.
    ghost faults: { Self → ℕ };

    /// The bytes that are held for each digest, where the object tells them.
    ghost told: { Self → Option Contents };

    /// Takes all contents away. A refusal leaves each as it was, or none.
    fn clear(&mut self, alloc: Global) -> Result<(), StoreError>
        ensures never_falls { faults self.old ≤ faults self.new }
        ensures cleared { OnOk result (IfSome (told self.old) (λ _. TellsContents (told self.new) (λ _. None))) }
        ensures refused { OnErr result (IfSome (told self.old) (LeavesCleared (told self.new))) }
        ensures fault { IfErr result (λ e. IsStoreFault e (faults self.old) (faults self.new)) };

    /// Where the content of a digest is, whether it can be read or not.
    fn content_location(
        &mut self,
        alloc: Global,
        digest: &AnyHash,
    ) -> Result<Option<Text>, StoreError>
        ensures never_falls { faults self.old ≤ faults self.new }
        ensures kept { IfSome (told self.old) (TellsContents (told self.new)) }
        ensures found { IfOk result (λ o. IfSome (told self.old) (λ held. is_some o ≡ is_some (held digest.now))) }
        ensures fault { IfErr result (λ e. IsStoreFault e (faults self.old) (faults self.new)) };

    /// The content of a digest. Where the bytes that are held have another digest, the answer is `IncorrectContent`.
    fn load_content(
        &mut self,
        alloc: Global,
        digest: &AnyHash,
    ) -> Result<Option<Vec<u8>>, StoreError>
        ensures never_falls { faults self.old ≤ faults self.new }
        ensures kept { IfSome (told self.old) (TellsContents (told self.new)) }
        ensures found { IfOk result (λ o. IfSome (told self.old) (λ held.
            held digest.now ≡ option_map (λ bytes. bytes.items) o)) }
        ensures whole { IfOk result (λ o. IfSome o (λ bytes. sha256 bytes.items ≡ digest.now)) }
        ensures fault { IfErr result (λ e. IsContentFault e digest.now (faults self.old) (faults self.new)
            (option_map (λ held. held digest.now) (told self.old))) };

    /// Keeps a content, and gives its digest. Where another digest is expected, the answer is `IncorrectContent`, and
    /// nothing changes. Another refusal leaves what was held, or a front of the bytes.
    fn store_content(
        &mut self,
        alloc: Global,
        bytes: &[u8],
        expected: Option<&AnyHash>,
    ) -> Result<AnyHash, StoreError>
        ensures never_falls { faults self.old ≤ faults self.new }
        ensures digest { IfOk result (λ digest. digest ≡ sha256 bytes.now) }
        ensures expected { IfOk result (λ digest. IfSome (option_copied expected.entry) (λ wanted. wanted ≡ digest)) }
        ensures stored { OnOk result (IfSome (told self.old) (λ held.
            TellsContents (told self.new) (with_content held (sha256 bytes.now) bytes.now))) }
        ensures refused { OnErr result (IfSome (told self.old) (λ held.
            LeavesContent (told self.new) held bytes.now)) }
        ensures incorrect { (found wanted : List ℕ) → result ≡ Err (IsIncorrect found wanted)
            → IfSome (told self.old) (TellsContents (told self.new)) }
        ensures fault { IfErr result (λ e. IsStoreContentFault e bytes.now (option_copied expected.entry)
            (faults self.old) (faults self.new)) };
}
