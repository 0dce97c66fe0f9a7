//! Queries: what a QUERY REQUEST is answered, and the settings that it changes (JESD220, 10.7.8, 10.7.9
//! and 14).
ghost use Rattle.std.specs.Prelude.{◌≡◌, ◌<◌, IsTrue, OnErr, OnOk, false, length, true};
ghost use Rattle.ufs_spec.specs.Exchanges.{most_short_exchanges};
ghost use Rattle.ufs_spec.specs.QueryAnswers.{may_set};
ghost use Rattle.ufs_spec.specs.Refusals.{State};
ghost use Rattle.ufs_spec.specs.Translation.{Translation, is_mended};
ghost use Rattle.descriptors.specs.Answers.{is_setting};
ghost use Rattle.descriptors.specs.Asks.{query_of};
ghost use Rattle.ftl_core.specs.Public.{Describes as IsLayer, has_number};
ghost use Rattle.settings.specs.Told.{bytes_of};
ghost use Rattle.device.specs.Bare.{IsBare};
ghost use Rattle.device.specs.Groups.{settings_kept};
ghost use Rattle.device.specs.Hears.{short_answer, with_short};
ghost use Rattle.device.specs.Queries.{HasPutSetting, HasQueried, HasSet, IsAnswerTo, at_once};
ghost use Rattle.device.specs.Queries.{settings_found, tells_at_once, with_setting};
ghost use Rattle.device.specs.Replies.{query_with};

use crate::device::Device;
use crate::responses::query_function;
use descriptors::{QueryAnswer, QueryRequest, QuerySettings, Setting, Told, answer};
use task_set::{Queried, Short, ShortReply};
use ufs_spec::{Block, HostFault};

/// How many slots a setting claims: one, for the settings page.
const SETTING_SLOTS: u16 = 1;

/// What was asked, with the value that came with it.
fn request_of(query: Queried, value: u32) -> QueryRequest
    ensures { query_of result ≡ query_with query value }
{
    QueryRequest {
        function: query_function(query.writing),
        asked: query.asked,
        length: query.length,
        value,
    }
}

/// A short exchange whose reply is due at once.
pub(crate) fn at_once(tag: u8, reply: ShortReply) -> Short
    ensures { result ≡ at_once tag reply }
{
    Short {
        tag,
        awaits: None,
        reply,
    }
}

impl Device {
    /// Takes a QUERY REQUEST with this value.
    ///
    /// # Errors
    ///
    /// Why no short exchange of this tag may be open. Nothing changes then.
    pub(crate) fn query(&mut self, tag: u8, query: Queried, value: u32) -> Result<(), HostFault>
        ensures refused { OnErr result (self.new ≡ self.old) }
        ensures answer { (t : Translation) → IsLayer self.old.ftl t →
            result ≡ short_answer self.old t.numbers false tag }
        ensures after { OnOk result (HasQueried self.old self.new tag query value) }
    {
        self.may_open_short(false, tag)?;
        self.answer_query(tag, query, value);
        Ok(())
    }

    /// A query is answered, or its setting is accepted.
    fn answer_query(&mut self, tag: u8, query: Queried, value: u32)
        requires { length self.old.shorts < most_short_exchanges }
        ensures { HasQueried self.old self.new tag query value }
    {
        match self.query_answer(query, value) {
            QueryAnswer::Code(code) => {
                let response = code.byte();
                self.push_short(at_once(tag, ShortReply::QueryFailed { query, response }));
            }
            QueryAnswer::Told(told) => self.tell_query(tag, query, &told),
            QueryAnswer::Setting(setting) => self.accept_setting(tag, query, setting),
        }
    }

    /// What the query is answered by its table.
    fn query_answer(&self, query: Queried, value: u32) -> QueryAnswer
        ensures is { (s : State) → IsLayer self.now.ftl s.translation → IsBare s self.now →
            IsAnswerTo s (query_with query value) result }
        // A setting is accepted only if a number is left for it.
        ensures numbered { is_setting result ≡ true → IsTrue (has_number self.now.ftl) }
    {
        let settings = self.query_settings();
        let request = request_of(query, value);
        answer(self.ftl.numbers(), settings, self.may_set(), &request)
    }

    /// The settings and flags that a query finds, durable or not.
    fn query_settings(&self) -> QuerySettings
        ensures { (t : Translation) → IsLayer self.now.ftl t →
            result ≡ settings_found (is_mended t.work.mending) self.now }
    {
        QuerySettings {
            boot: self.boot,
            is_permanent: self.is_permanent,
            volatile: self.volatile,
            is_mended: self.ftl.is_mended(),
        }
    }

    /// Whether a setting can be accepted: the device is mended and not locked, and a slot is free.
    fn may_set(&self) -> bool
        ensures what { (s : State) → IsLayer self.now.ftl s.translation → result ≡ may_set s }
        ensures numbered { result ≡ true → IsTrue (has_number self.now.ftl) }
    {
        self.ftl.is_mended() && !self.ftl.is_locked() && self.ftl.free_slots() > 0
    }

    /// A query that is no setting is answered at once; it may change what is volatile.
    fn tell_query(&mut self, tag: u8, query: Queried, told: &Told)
        requires { length self.old.shorts < most_short_exchanges }
        ensures { self.new ≡ tells_at_once self.old tag query told.now }
    {
        self.volatile = told.volatile;
        let value = told.value;
        self.push_short(at_once(tag, ShortReply::QueryDone { query, value }));
    }

    /// A setting is accepted. Its answer waits until it is durable; if the last number is given with it,
    /// the device is locked from now on.
    fn accept_setting(&mut self, tag: u8, query: Queried, setting: Setting)
        requires room { length self.old.shorts < most_short_exchanges }
        requires numbered { IsTrue (has_number self.old.ftl) }
        ensures { HasSet self.old self.new tag query setting }
    {
        self.change_setting(setting);
        let page = self.settings().page();
        let number = self.put_setting(tag, &page);
        self.push_short(Short {
            tag,
            awaits: Some(number),
            reply: ShortReply::QueryDone {
                query,
                value: setting.value(),
            },
        });
        self.end_waiting();
    }

    /// The boot setting or fPermanentWPEn is as it was accepted now.
    fn change_setting(&mut self, setting: Setting)
        ensures { self.new ≡ with_setting self.old setting }
    {
        match setting {
            Setting::Boot(boot) => self.boot = boot,
            Setting::Permanent => self.is_permanent = true,
        }
    }

    /// The settings page is put behind all that are pending, in a slot that is free, and has this number.
    fn put_setting(&mut self, tag: u8, page: &Block) -> u64
        requires { IsTrue (has_number self.old.ftl) }
        ensures left { self.new ≡ record self.old { ftl = self.new.ftl } }
        ensures put { HasPutSetting self.old.ftl self.new.ftl tag page.now result }
    {
        let _ = self.ftl.reserve(tag, SETTING_SLOTS);
        self.put_settings(tag, page)
    }

    /// One short exchange more.
    pub(crate) fn push_short(&mut self, short: Short)
        requires { length self.old.shorts < most_short_exchanges }
        ensures { self.new ≡ with_short self.old short }
    {
        self.set.open_short(short);
    }
}
