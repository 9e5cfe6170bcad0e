// The texts that a line prints: rules, their count, forecasts and refusals.
ghost use Rattle.std.specs.Prelude.{◌≡◌, ◌+◌, ◌<◌, ◌≤◌, [], ◌∷◌, ◌++◌, length};
ghost use Rattle.session.specs.Rooms.{page_room};
ghost use Rattle.session.specs.Pages.{text_of, used};
ghost use Rattle.session.specs.Texts.{mark, condition, conditions, rule_text, count_text, forecast_text, refusal_text};

use super::Page;
use itoa::{Buffer, Integer};
use model::{Head, Sense};

// The mark of a sense. No From: the byte and the sense are both of other crates.
fn sign(sense: Sense) -> u8
    ensures { mark sense ≡ result ∷ [] }
{
    match sense {
        Sense::Can => b'=',
        Sense::Cannot => b'!',
    }
}

impl Page {
    // A number in decimal. Not by `write!`, of which no contract says that it succeeds.
    fn push_number<N: Integer>(&mut self, number: N)
        requires { used self.old + N.MAX_STR_LEN ≤ page_room }
        ensures items { text_of self.new ≡ text_of self.old ++ N.text number }
        ensures len { used self.new ≤ used self.old + N.MAX_STR_LEN }
    {
        self.extend_from_slice(Buffer::new().format(number).as_bytes());
    }

    // A feature's condition, where it has one. A feature has one digit.
    fn push_condition(&mut self, feature: u8, code: u8)
        requires digit { feature < 10 }
        requires room { used self.old + 6 ≤ page_room }
        ensures items { text_of self.new ≡ text_of self.old ++ condition feature code }
        ensures len { used self.new ≤ used self.old + 6 }
    {
        if code > 0 {
            self.push(b' ');
            self.push(b'0' + feature);
            self.push(b'=');
            self.push_number(code - 1);
        }
    }

    // The conditions of a body, feature 0 first.
    fn push_conditions(&mut self, body: &[u8])
        requires body { length body.now ≤ 8 }
        requires room { used self.old + 48 ≤ page_room }
        ensures items { text_of self.new ≡ text_of self.old ++ conditions 0 body.now }
        ensures len { used self.new ≤ used self.old + 48 }
    {
        'features: for (feature, code) in body.iter().enumerate() {
            self.push_condition(feature as u8, *code);
        }
    }

    // The line of a listed rule: its head, then each feature with a condition.
    pub(crate) fn print_rule(&mut self, head: Head, sense: Sense, body: &[u8])
        requires body { length body.now ≤ 8 }
        requires room { used self.old + 70 ≤ page_room }
        ensures items { text_of self.new ≡ text_of self.old ++ rule_text head.target sense head.value body.now }
        ensures len { used self.new ≤ used self.old + 70 }
    {
        self.push_number(head.target);
        self.push(sign(sense));
        self.push_number(head.value);
        self.push_conditions(body);
        self.push(b'\n');
    }

    // The line of how many rules were listed.
    pub(crate) fn print_count(&mut self, rules: u32)
        requires { used self.old + 17 ≤ page_room }
        ensures items { text_of self.new ≡ text_of self.old ++ count_text rules }
        ensures len { used self.new ≤ used self.old + 17 }
    {
        self.push_number(rules);
        self.extend_from_slice(b" rules\n");
    }

    // A refusal's line.
    pub(crate) fn print_refusal(&mut self, number: u8)
        requires { used self.old + 6 ≤ page_room }
        ensures items { text_of self.new ≡ text_of self.old ++ refusal_text number }
        ensures len { used self.new ≤ used self.old + 6 }
    {
        self.extend_from_slice(b"! ");
        self.push_number(number);
        self.push(b'\n');
    }

    // A forecast's line: the weights for and against, and the percentage.
    pub(crate) fn print_forecast(&mut self, pro: u32, contra: u32, percentage: u32)
        requires { used self.old + 33 ≤ page_room }
        ensures items { text_of self.new ≡ text_of self.old ++ forecast_text pro contra percentage }
        ensures len { used self.new ≤ used self.old + 33 }
    {
        self.push_number(pro);
        self.push(b' ');
        self.push_number(contra);
        self.push(b' ');
        self.push_number(percentage);
        self.push(b'\n');
    }
}
