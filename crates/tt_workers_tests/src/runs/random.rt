//! Documents that look random: many calls of fifteen workers, a repair of a hundred of them, and
//! calls that are made meanwhile.
use std::alloc::Global;
use std::process::Abort;

const HEAD: &str =
    r#"{"version":3,"tables":[{"name":"acct","columns":[{"name":"id","kind":"int"},{"name":"owner","kind":"text","partition":true},{"name":"bal","kind":"int"}]},{"name":"note","columns":[{"name":"k","kind":"int"},{"name":"body","kind":"text"}]}],"workers":15,"calls":["#;

const WORKERS: u32 = 15;

/// How many calls each worker makes before the repair, and while it is under way.
const CALLS: u32 = 1000;

const CALLS_MEANWHILE: u32 = 100;

/// How many calls the repair edits.
const EDITS: u32 = 100;

/// The text of a document. It depends on the seed alone, and differs from seed to seed.
pub(super) fn text_of_document(rt: &impl Abort, alloc: Global, seed: u64) -> String {
    let mut script = Script {
        text: String::new(alloc),
        state: seed,
        calls: 0,
        actions: Vec::new(alloc),
    };
    script.push(rt, HEAD);
    script.push_calls(rt, CALLS);
    script.push(rt, "],\n\"repair\":{\"edits\":[");
    script.push_edits(rt);
    script.push(rt, "],\n\"meanwhile\":[");
    script.push_calls(rt, CALLS_MEANWHILE);
    script.push(rt, "]}}");
    script.text
}

/// A document that is being written.
#[derive(Drop)]
struct Script {
    text: String,
    /// What the next numbers that look random are made of.
    state: u64,
    /// How many calls there are.
    calls: u32,
    /// The numbers of those that are actions.
    actions: Vec<u32>,
}

impl Script {
    /// The next number, below the bound.
    fn below(&mut self, bound: u32) -> u32 {
        let product = self.state.wrapping_mul(6_364_136_223_846_793_005);
        self.state = product.wrapping_add(1_442_695_040_888_963_407);
        let high = u32::try_from(self.state >> 33).unwrap_or(0);
        high.checked_rem(bound).unwrap_or(0)
    }

    fn id(&mut self) -> u32 {
        self.below(200)
    }

    fn balance(&mut self) -> u32 {
        self.below(40)
    }

    fn owner(&mut self) -> &'static str {
        match self.below(6) {
            0 => "ann",
            1 => "bob",
            2 => "dan",
            3 => "eve",
            4 => "fay",
            _ => "gus",
        }
    }

    /// How a value is compared, with the comma behind it: an equality in half of the cases.
    fn comparison(&mut self) -> &'static str {
        match self.below(10) {
            0 => "\"!=\",",
            1 => "\"<\",",
            2 => "\"<=\",",
            3 => "\">\",",
            4 => "\">=\",",
            _ => "",
        }
    }

    fn push(&mut self, rt: &impl Abort, words: &str) {
        self.text.push_str(words).expect(rt, "memory");
    }

    /// A comma, but before the first of a list.
    fn push_comma(&mut self, rt: &impl Abort, position: u32) {
        if position > 0 {
            self.push(rt, ",\n");
        }
    }

    /// So many calls of each worker.
    fn push_calls(&mut self, rt: &impl Abort, each: u32) {
        for turn in 0..each {
            for worker in 0..WORKERS {
                self.push_comma(rt, turn.saturating_add(worker));
                self.push_call(rt, worker.saturating_add(1));
            }
        }
    }

    fn push_call(&mut self, rt: &impl Abort, worker: u32) {
        self.calls = self.calls.saturating_add(1);
        write!(self.text, "{{\"worker\":{worker},").expect(rt, "memory");
        match self.below(4) {
            0 => self.push_read(rt),
            _ => {
                self.actions.push(self.calls).expect(rt, "memory");
                self.push_action(rt);
            }
        }
        self.push(rt, "}");
    }

    fn push_read(&mut self, rt: &impl Abort) {
        match self.below(5) {
            0 => self.push(rt, "\"select\":\"note\",\"where\":[]"),
            1 => self.push(rt, "\"preview\":\"acct\",\"where\":[]"),
            2 => self.push_preview(rt),
            3 => self.push_select(rt),
            _ => self.push_select_at(rt),
        }
    }

    fn push_preview(&mut self, rt: &impl Abort) {
        let owner = self.owner();
        write!(
            self.text,
            "\"preview\":\"acct\",\"where\":[[\"owner\",\"{owner}\"]]"
        )
        .expect(rt, "memory");
    }

    fn push_select(&mut self, rt: &impl Abort) {
        let how = self.comparison();
        let owner = self.owner();
        write!(
            self.text,
            "\"select\":\"acct\",\"where\":[[\"owner\",{how}\"{owner}\"]]"
        )
        .expect(rt, "memory");
    }

    /// A select of a time that may still be to come.
    fn push_select_at(&mut self, rt: &impl Abort) {
        let calls = self.calls;
        let time = self.below(calls);
        write!(self.text, "\"select\":\"acct\",\"where\":[],\"at\":{time}").expect(rt, "memory");
    }

    /// A write, or a list of up to three.
    fn push_action(&mut self, rt: &impl Abort) {
        match self.below(8) {
            0 => self.push_writes(rt),
            _ => self.push_write(rt),
        }
    }

    fn push_writes(&mut self, rt: &impl Abort) {
        self.push(rt, "\"do\":[");
        for position in 0..self.below(4) {
            self.push_comma(rt, position);
            self.push(rt, "{");
            self.push_write(rt);
            self.push(rt, "}");
        }
        self.push(rt, "]");
    }

    fn push_write(&mut self, rt: &impl Abort) {
        match self.below(10) {
            0..=3 => self.push_insert(rt),
            4 => self.push_note(rt),
            5 => self.push_gift(rt),
            6 => self.push_new_owner(rt),
            7 => self.push_new_balances(rt),
            8 => self.push_delete(rt),
            _ => self.push_delete_of_balances(rt),
        }
    }

    fn push_insert(&mut self, rt: &impl Abort) {
        let id = self.id();
        let owner = self.owner();
        let balance = self.balance();
        write!(
            self.text,
            "\"insert\":\"acct\",\"row\":[{id},\"{owner}\",{balance}]"
        )
        .expect(rt, "memory");
    }

    fn push_note(&mut self, rt: &impl Abort) {
        let key = self.below(20).saturating_add(1);
        let body = self.balance();
        write!(
            self.text,
            "\"insert\":\"note\",\"row\":[-{key},\"note {body}\"]"
        )
        .expect(rt, "memory");
    }

    fn push_gift(&mut self, rt: &impl Abort) {
        let by = self.balance();
        let owner = self.owner();
        write!(
            self.text,
            "\"update\":\"acct\",\"change\":[[\"add\",\"bal\",{by}]],\"where\":[[\"owner\",\"{owner}\"]]"
        )
        .expect(rt, "memory");
    }

    fn push_new_owner(&mut self, rt: &impl Abort) {
        let owner = self.owner();
        let id = self.id();
        write!(
            self.text,
            "\"update\":\"acct\",\"change\":[[\"set\",\"owner\",\"{owner}\"]],\"where\":[[\"id\",{id}]]"
        )
        .expect(rt, "memory");
    }

    fn push_new_balances(&mut self, rt: &impl Abort) {
        let balance = self.balance();
        write!(
            self.text,
            "\"update\":\"acct\",\"change\":[[\"set\",\"bal\",{balance}]],"
        )
        .expect(rt, "memory");
        self.push_where_balances(rt);
    }

    /// The condition of a few keys whose balances compare with a number.
    fn push_where_balances(&mut self, rt: &impl Abort) {
        let first = self.id();
        let last = first.saturating_add(4);
        let how = self.comparison();
        let balance = self.balance();
        write!(
            self.text,
            "\"where\":[[\"id\",\">=\",{first}],[\"id\",\"<=\",{last}],[\"bal\",{how}{balance}]]"
        )
        .expect(rt, "memory");
    }

    fn push_delete(&mut self, rt: &impl Abort) {
        let id = self.id();
        write!(self.text, "\"delete\":\"acct\",\"where\":[[\"id\",{id}]]").expect(rt, "memory");
    }

    fn push_delete_of_balances(&mut self, rt: &impl Abort) {
        self.push(rt, "\"delete\":\"acct\",");
        self.push_where_balances(rt);
    }

    /// The edits of the repair, of actions far from one another.
    fn push_edits(&mut self, rt: &impl Abort) {
        for position in 0..EDITS {
            let call = self.action(position);
            self.push_comma(rt, position);
            match self.below(2) {
                0 => write!(self.text, "{{\"cancel\":{call}}}").expect(rt, "memory"),
                _ => self.push_replace(rt, call),
            }
        }
    }

    /// The number of the action that the edit at a position is of: 0 where there are too few.
    fn action(&self, position: u32) -> u32 {
        let distance = self.actions.len() / EDITS as usize;
        let place = distance.saturating_mul(position as usize);
        self.actions.get(place).copied().unwrap_or(0)
    }

    fn push_replace(&mut self, rt: &impl Abort, call: u32) {
        write!(self.text, "{{\"replace\":{call},\"by\":{{").expect(rt, "memory");
        self.push_action(rt);
        self.push(rt, "}}");
    }
}
