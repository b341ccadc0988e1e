//! Voters in JSON.
use crate::item::{Item, list_at, list_in, write_list};
use crate::limits::MOST_VOTES;
use crate::parts::{account_in, u64_in, with_keys};
use crate::tokens::{Miss, close_object, key, open_object, u64_at};
use block_wire::BundleVoter;
use json::{Reader, Writer};
use npos_base::{AccountId, NoMemory};
use serde_json::Value;
use std::alloc::Global;

impl Item for BundleVoter {
    ghost use Rattle.bundle_json.specs.Json.{voter_json};
    ghost use Rattle.bundle_json.specs.Shape.{voter_in};

    ghost json = { voter_json };

    ghost read = { voter_in };

    ghost nests = { 2 };

    fn write(&self, alloc: Global, out: &mut Writer) -> Result<(), NoMemory> {
        out.begin_object()?;
        out.key("account")?;
        self.account.write(alloc, out)?;
        out.key("stake")?;
        out.u64(self.stake)?;
        out.key("votes")?;
        write_list(&self.votes, alloc, out)?;
        out.end_object()?;
        Ok(())
    }

    fn from_json(alloc: Global, value: &Value) -> Result<Option<BundleVoter>, NoMemory> {
        let Some(object) = with_keys(value, 3) else {
            return Ok(None);
        };
        let Some(account) = object.get("account").and_then(account_in) else {
            return Ok(None);
        };
        let Some(stake) = object.get("stake").and_then(u64_in) else {
            return Ok(None);
        };
        let Some(votes) = object.get("votes") else {
            return Ok(None);
        };
        let Some(votes) = list_in(alloc, votes, MOST_VOTES)? else {
            return Ok(None);
        };
        Ok(Some(BundleVoter {
            account,
            stake,
            votes,
        }))
    }

    fn from_tokens(alloc: Global, tokens: &mut Reader<'_>) -> Result<BundleVoter, Miss> {
        open_object(tokens)?;
        key(tokens, "account")?;
        let account = AccountId::from_tokens(alloc, tokens)?;
        key(tokens, "stake")?;
        let stake = u64_at(tokens)?;
        key(tokens, "votes")?;
        let votes = list_at(alloc, tokens, MOST_VOTES)?;
        close_object(tokens)?;
        Ok(BundleVoter {
            account,
            stake,
            votes,
        })
    }
}
