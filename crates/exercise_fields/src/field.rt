/// A field: its number, its key, and the least and the most of it that there may be. That is the range of a number, of the
/// bytes of a text, and of the items of a list.
#[derive(Clone, Copy)]
pub struct Field {
    pub number: u32,
    pub key: &'static str,
    pub least: u32,
    pub most: u32,
}

// The table of fields. A text that has no bound of its own is at most as long as the whole.
impl Field {
    /// The kind of the exercise, which says what other fields it has.
    pub const KIND: Field = Field {
        number: 1,
        key: "kind",
        least: 0,
        most: 65_536,
    };

    /// What the student reads.
    pub const PROMPT: Field = Field {
        number: 2,
        key: "prompt",
        least: 0,
        most: 4000,
    };

    /// What a correct submission in time earns.
    pub const POINTS: Field = Field {
        number: 3,
        key: "points",
        least: 0,
        most: 1000,
    };

    /// The percents of the points that each late day takes off.
    pub const PERCENT: Field = Field {
        number: 4,
        key: "percent",
        least: 0,
        most: 100,
    };

    /// The civil time at which the exercise is due, in the course's zone.
    pub const DUE: Field = Field {
        number: 5,
        key: "due",
        least: 0,
        most: 65_536,
    };

    /// For how many days after that late submissions are accepted.
    pub const CLOSE_DAYS: Field = Field {
        number: 6,
        key: "close_days",
        least: 0,
        most: 365,
    };

    /// How many submissions a student has.
    pub const ATTEMPTS: Field = Field {
        number: 7,
        key: "attempts",
        least: 1,
        most: 1000,
    };

    /// The premises of a proof or an argument.
    pub const PREMISES: Field = Field {
        number: 8,
        key: "premises",
        least: 0,
        most: 32,
    };

    /// The goal of a proof or an argument.
    pub const GOAL: Field = Field {
        number: 9,
        key: "goal",
        least: 0,
        most: 65_536,
    };

    /// The consequence rules that a proof may use.
    pub const CONSEQUENCES: Field = Field {
        number: 10,
        key: "con",
        least: 0,
        most: 3,
    };

    /// The sentences of a world or of a list of sentences.
    pub const SENTENCES: Field = Field {
        number: 11,
        key: "sentences",
        least: 1,
        most: 20,
    };

    /// The sentences of a table, which are fewer.
    pub const TABLE_SENTENCES: Field = Field {
        number: 11,
        key: "sentences",
        least: 1,
        most: 8,
    };

    /// The truth values that the sentences should have in a student's world, one for each.
    pub const VALUES: Field = Field {
        number: 12,
        key: "values",
        least: 1,
        most: 20,
    };

    /// The worlds in which a student's sentences are tried.
    pub const WORLDS: Field = Field {
        number: 13,
        key: "worlds",
        least: 1,
        most: 10,
    };

    /// The questions about a table.
    pub const QUESTIONS: Field = Field {
        number: 14,
        key: "questions",
        least: 0,
        most: 20,
    };
}
