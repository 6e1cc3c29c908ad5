//! Laws of shards, each the contract of a function that does nothing.
ghost use Rattle.lh_shards.specs.Listings.{ListedLaw};
ghost use Rattle.lh_shards.specs.OneMap.{OneMapLaw};
ghost use Rattle.lh_shards.specs.Own.{CalledLaw, HandsDividedLaw, HandsJoinedLaw, SameLaw};
ghost use Rattle.lh_shards.specs.Traced.{TracedLaw};

use lh_file::laws::hands_keep_their_shares as hands_of_a_file_keep_their_shares;

/// Where each shard's history is legal, as settling answers it, every merge of these histories that keeps the order of
/// each is a legal history of one plain map, with the same replies, and what the shards hold at last are the parts of
/// what it leaves. So the shards together are linearizable where each file is (Herlihy and Wing, 1990: locality).
pub fn shards_are_one_map()
    ensures { OneMapLaw }
{}

/// The listings of settled shards have each record in its own shard, where those that the shards were opened from had.
/// So [`Shards::open_from`](crate::Shards::open_from) refuses no record of them.
pub fn settled_shards_list_their_own()
    ensures { ListedLaw }
{}

/// Traced shards need no settling to be one map: where all their buckets were met, no split was under way, and all
/// calls came home to the hands that closed them, each shard has one legal history, and every merge of these is legal.
pub fn traced_shards_are_settled()
    ensures { TracedLaw }
{}

/// What keeps the hand of one shard its file's own, with its share, as the public calls of a traced file do by [their
/// law](lh_file::laws::hands_keep_their_shares), keeps the hands of all shards so, and so do dividing and joining them.
/// Hands into which all others were joined have then, at [`Shards::close`](crate::Shards::close), what
/// [`traced_shards_are_settled`] asks for.
pub fn hands_keep_their_shares()
    ensures called { CalledLaw }
    ensures same { SameLaw }
    ensures divided { HandsDividedLaw }
    ensures joined { HandsJoinedLaw }
{
    hands_of_a_file_keep_their_shares();
}
