//! What a bucket answers.
ghost use Rattle.std.specs.Prelude.{◌≡◌, option_copied};
ghost use Rattle.lh_addr.specs.Fnv.{code_of};
ghost use Rattle.lh_bucket.specs.declared.call.Call.TheVariants.{Search};
ghost use Rattle.lh_bucket.specs.Call.{key_of};
ghost use Rattle.lh_bucket.specs.Change.{call_of, reply_of};
ghost use Rattle.lh_bucket.specs.PlainMap.{found, FitsCall};
ghost use Rattle.lh_bucket.specs.Tags.{given_of};

use crate::call::{Call, Reply};
use crate::change::{Change, ChangeReply};
use crate::home::Home;
use lh_page::{Key, Value};
use std::marker::Model;

/// The kind of a call.
#[derive(Clone, Copy, Debug, PartialEq, Eq)]
enum Asked {
    Search,
    Insert,
    Delete,
    Replace,
}

/// The kind of a reply.
#[derive(Clone, Copy, Debug, PartialEq, Eq)]
enum Given {
    Found,
    Absent,
    Inserted,
    Exists,
    Deleted,
    Replaced,
}

/// The answer of a bucket to a call: the call, its reply, and the bucket that gave it.
///
/// It is made of a [`Home`], which only a bucket makes, or by [`look`](crate::Bucket::look) and
/// [`serve`](crate::Bucket::serve): at a bucket whose local level was the level that the call looked for. So the
/// call's key belongs to that bucket: the code's hash at that level is the bucket's number. Whoever makes one of a
/// `Home` answers for its reply, which some map has to give to the call.
#[derive(Clone, Copy, Debug, PartialEq, Eq)]
pub struct Answer {
    bucket: u32,
    initial: u32,
    level: u8,
    key: Key,
    // That of the call, or of the reply: no call with a value has a reply with one.
    value: Value,
    asked: Asked,
    given: Given,
}

impl Model for Answer {
    ghost use Rattle.std.specs.Prelude.{◌≡◌};
    ghost use Rattle.lh_bucket.specs.Answer.{Answered, IsAnswer};
    ghost use Rattle.lh_bucket.specs.Call.{key_of};
    ghost use Rattle.lh_bucket.specs.Tags.{call_by, reply_by, asked_of, given_of, value_of, GoTogether};
    ghost use Rattle.lh_bucket.specs.Tags.{key_back, value_back, asked_back, given_back};

    ghost Value = { Answered };

    ghost view = { λ a. record {
      call = call_by a.asked a.key a.value;
      reply = reply_by a.given a.value;
      bucket = a.bucket;
      level = a.level;
      initial = a.initial;
    } };

    ghost invariant = { λ a. GoTogether a.asked a.given a.value × IsAnswer (record {
      call = call_by a.asked a.key a.value;
      reply = reply_by a.given a.value;
      bucket = a.bucket;
      level = a.level;
      initial = a.initial;
    }) };

    ghost inverse = { λ a. record {
      key = key_of a.call;
      value = value_of a.call a.reply;
      bucket = a.bucket;
      initial = a.initial;
      level = a.level;
      asked = asked_of a.call;
      given = given_of a.reply;
    } };

    ghost inverse_ok = { λ a h i. record {
      key = key_back a.asked a.key a.value i;
      value = value_back a.asked a.given a.key a.value h.0 i;
      bucket = a.bucket;
      initial = a.initial;
      level = a.level;
      asked = asked_back a.asked a.key a.value i;
      given = given_back a.given a.value i;
    } };
}

impl Answer {
    ghost use Rattle.lh_bucket.specs.Answer.{Answered, IsAnswer};

    /// The answer to a search that met this value, or none, at the home of the key's code.
    #[inline(always)]
    pub fn of_search(key: &Key, value: Option<&Value>, home: Home) -> Answer
        requires { code_of key.now ≡ home.code }
        ensures { result ≡ record {
          call = Search key.now;
          reply = found (option_copied value.entry);
          bucket = home.bucket;
          level = home.level;
          initial = home.initial;
        } }
    {
        Answer::searched(key, value, home.bucket(), home.level(), home.initial())
    }

    /// The answer to a change with this reply, at the home of the key's code.
    #[inline(always)]
    pub fn of_change(change: Change<'_>, reply: ChangeReply, home: Home) -> Answer
        requires home { code_of (key_of (call_of change)) ≡ home.code }
        requires fits { FitsCall (call_of change) (reply_of reply) }
        ensures { result ≡ record {
          call = call_of change.entry;
          reply = reply_of reply;
          bucket = home.bucket;
          level = home.level;
          initial = home.initial;
        } }
    {
        Answer::changed(change, reply, home.bucket(), home.level(), home.initial())
    }

    /// The answer of a bucket to a search.
    #[inline(always)]
    pub(crate) fn searched(
        key: &Key,
        value: Option<&Value>,
        bucket: u32,
        level: u8,
        initial: u32,
    ) -> Answer
        requires { IsAnswer (record {
          call = Search key.now;
          reply = found (option_copied value);
          bucket = bucket;
          level = level;
          initial = initial;
        }) }
        ensures { result ≡ record {
          call = Search key.now;
          reply = found (option_copied value.entry);
          bucket = bucket;
          level = level;
          initial = initial;
        } }
    {
        match value {
            Some(value) => Answer {
                key: *key,
                value: *value,
                bucket,
                initial,
                level,
                asked: Asked::Search,
                given: Given::Found,
            },
            None => Answer {
                key: *key,
                value: Value::empty(),
                bucket,
                initial,
                level,
                asked: Asked::Search,
                given: Given::Absent,
            },
        }
    }

    /// The answer of a bucket to a change.
    #[inline(always)]
    pub(crate) fn changed(
        change: Change<'_>,
        reply: ChangeReply,
        bucket: u32,
        level: u8,
        initial: u32,
    ) -> Answer
        requires { IsAnswer (record {
          call = call_of change;
          reply = reply_of reply;
          bucket = bucket;
          level = level;
          initial = initial;
        }) }
        ensures { result ≡ record {
          call = call_of change.entry;
          reply = reply_of reply;
          bucket = bucket;
          level = level;
          initial = initial;
        } }
    {
        let given = given_for(reply);
        match change {
            Change::Insert(key, value) => Answer {
                key: *key,
                value: *value,
                bucket,
                initial,
                level,
                asked: Asked::Insert,
                given,
            },
            Change::Delete(key) => Answer {
                key: *key,
                value: Value::empty(),
                bucket,
                initial,
                level,
                asked: Asked::Delete,
                given,
            },
            Change::Replace(key, value) => Answer {
                key: *key,
                value: *value,
                bucket,
                initial,
                level,
                asked: Asked::Replace,
                given,
            },
        }
    }

    /// The call that was answered.
    #[inline]
    pub fn call(&self) -> Call
        ensures value { result ≡ self.now.call }
        ensures home { IsAnswer self.now }
    {
        match self.asked {
            Asked::Search => Call::Search(self.key),
            Asked::Insert => Call::Insert(self.key, self.value),
            Asked::Delete => Call::Delete(self.key),
            Asked::Replace => Call::Replace(self.key, self.value),
        }
    }

    /// The reply to it.
    #[inline]
    pub fn reply(&self) -> Reply
        ensures value { result ≡ self.now.reply }
        ensures home { IsAnswer self.now }
    {
        match self.given {
            Given::Found => Reply::Found(self.value),
            Given::Absent => Reply::Absent,
            Given::Inserted => Reply::Inserted,
            Given::Exists => Reply::Exists,
            Given::Deleted => Reply::Deleted,
            Given::Replaced => Reply::Replaced,
        }
    }

    /// The number of the bucket that answered.
    pub fn bucket(&self) -> u32
        ensures value { result ≡ self.now.bucket }
        ensures home { IsAnswer self.now }
    {
        self.bucket
    }

    /// The local level of that bucket, which was the level that the call looked for.
    pub fn level(&self) -> u8
        ensures value { result ≡ self.now.level }
        ensures home { IsAnswer self.now }
    {
        self.level
    }

    /// The number of buckets that the bucket's file began with.
    pub fn initial(&self) -> u32
        ensures value { result ≡ self.now.initial }
        ensures home { IsAnswer self.now }
    {
        self.initial
    }
}

/// The kind of the reply to a change.
#[inline(always)]
fn given_for(reply: ChangeReply) -> Given
    ensures { result ≡ given_of (reply_of reply) }
{
    match reply {
        ChangeReply::Inserted => Given::Inserted,
        ChangeReply::Exists => Given::Exists,
        ChangeReply::Deleted => Given::Deleted,
        ChangeReply::Replaced => Given::Replaced,
        ChangeReply::Absent => Given::Absent,
    }
}
