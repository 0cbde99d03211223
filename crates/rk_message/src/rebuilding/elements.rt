use crate::fields::Element;
use rk_entry::DecodeError;
use rk_entry::fields::{put_u8, put_u64, read_u8, read_u64};
use rk_types::Member;
use std::alloc::Global;

impl Element for Member {
    ghost use Rattle.rk_message.specs.declared.rebuilding.TheConstants.{MEMBER_BYTES};
    ghost use Rattle.rk_message.specs.Rebuilding.{member_bytes, IsLawfulMember, read_member};

    ghost spelled = { member_bytes };

    ghost count = { λ member. MEMBER_BYTES };

    ghost IsLawful = { IsLawfulMember };

    ghost read_as = { read_member };

    #[tactic(auto, unfolding(crate::specs::Rebuilding::read_member))]
    fn read(_alloc: Global, bytes: &[u8]) -> Result<(Member, &[u8]), DecodeError> {
        let (master, rest) = read_u8(bytes)?;
        let (from, rest) = read_u64(rest)?;
        Ok((Member { master, from }, rest))
    }

    #[tactic(auto, unfolding(crate::specs::Rebuilding::member_bytes))]
    fn put(&self, into: &mut Vec<u8>) {
        put_u8(into, self.master);
        put_u64(into, self.from);
    }
}
