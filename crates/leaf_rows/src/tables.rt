// The tables of cases: a line for each.
use crate::answer::Answer;
use crate::given::Given;
use case_table::{Field, Refusal, Route, ValueType};

// Each refusal's number, word, status and message, and three dots where a detail comes behind it.
fn refusals(out: &mut Answer) {
    for refusal in &Refusal::ALL {
        out.number("", u64::from(refusal.code()));
        out.words(" ", refusal.word());
        out.number(" ", u64::from(refusal.status()));
        out.words(" ", refusal.message());
        out.word(if refusal.has_detail() { "...\n" } else { "\n" });
    }
}

fn routes(out: &mut Answer) {
    for route in &Route::ALL {
        out.number("", u64::from(route.code()));
        out.words(" ", route.word());
        out.word(" ");
        out.show(&route.method());
        out.word("\n");
    }
}

fn value_types(out: &mut Answer) {
    for kind in &ValueType::ALL {
        out.words(kind.word(), " ");
        out.show(&kind.class());
        out.word("\n");
    }
}

// Each field's number, action and name.
fn fields(out: &mut Answer) {
    for field in &Field::ALL {
        out.number("", u64::from(field.code()));
        out.words(" ", field.kind().word());
        out.words(" ", field.name());
        out.word("\n");
    }
}

/// Answers a call, where it is one of these.
pub(crate) fn answer(call: &str, given: &Given, out: &mut Answer) -> bool {
    match call {
        "refusals" => refusals(out),
        "routes" => routes(out),
        "value_types" => value_types(out),
        "fields_of_actions" => fields(out),
        "refusal" => {
            let found = Refusal::of_word(given.word("word", out));
            out.show(&found);
        }
        "value_type" => {
            let found = ValueType::of_word(given.word("word", out));
            out.show(&found);
        }
        _ => return false,
    }
    true
}
