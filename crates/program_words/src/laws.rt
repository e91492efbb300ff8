ghost use Rattle.std.specs.Prelude.{◌≡◌, ◌≤◌, IfSome, ℕ, List, [], ◌∷◌, None, Some, codes, false, true};
ghost use Rattle.program_words.specs.Examples.{ask_for, certain_table_for, conflicts_in_s, explain_for, golden_in_s};
ghost use Rattle.program_words.specs.Examples.{possible_for, possible_table_for, said};
ghost use Rattle.program_words.specs.Examples.{said_after_ask, said_after_conflicts, said_after_explain, said_after_golden};
ghost use Rattle.program_words.specs.Examples.{said_after_possible, said_after_session, session_over_s};
ghost use Rattle.program_words.specs.Words.{AskFor, AskSaid, CertainTableFor, ConflictsIn, ConflictsSaid, ExplainFor};
ghost use Rattle.program_words.specs.Words.{ExplainSaid, ForcedOf, GoldenIn, GoldenSaid, IsRefused, PossibleFor};
ghost use Rattle.program_words.specs.Words.{PossibleSaid, PossibleTableFor, SessionOver, SessionSaid, TableSaid, TrialOf, VerifyOf};
ghost use Rattle.program_words.specs.Words.{command_of};
ghost use Rattle.program_words.specs.declared.command.AnswerForm.TheVariants.{Brief, Verdict, Whole};

/// Examples of words: what they say, and which are refused.
pub fn words_are_read()
    ensures ask { said_after_ask [] ≡ ask_for 100000 Whole false None }
    ensures options { said_after_ask (codes "--budget" ∷ codes "1" ∷ codes "--brief" ∷ codes "--guide" ∷ codes "4" ∷ [])
        ≡ ask_for 1 Brief false (Some 4) }
    ensures joined { said_after_ask (codes "--budget=5" ∷ []) ≡ ask_for 5 Whole false None }
    ensures first { said (codes "ask" ∷ codes "--guide=1" ∷ codes "s" ∷ codes "--brief" ∷ codes "q" ∷ [])
        ≡ ask_for 100000 Brief false (Some 1) }
    ensures most { said_after_ask (codes "--budget" ∷ codes "10000000" ∷ []) ≡ ask_for 10000000 Whole false None }
    ensures verify { said (codes "verify" ∷ codes "s" ∷ codes "q" ∷ codes "r" ∷ [])
        ≡ Some (VerifyOf (record { spec = codes "s"; question = codes "q"; report = codes "r" })) }
    ensures forced { said (codes "forced" ∷ codes "s" ∷ []) ≡ Some (ForcedOf (codes "s")) }
    ensures trial { said (codes "trial" ∷ codes "12" ∷ []) ≡ Some (TrialOf 12) }
    ensures trial_most { said (codes "trial" ∷ codes "1000" ∷ []) ≡ Some (TrialOf 1000) }
    ensures no_name { command_of [] ≡ None }
    ensures no_word { said [] ≡ None }
    ensures unknown { said (codes "why" ∷ codes "s" ∷ codes "q" ∷ codes "1" ∷ []) ≡ None }
    ensures help { said (codes "help" ∷ []) ≡ None }
    ensures help_option { said (codes "--help" ∷ []) ≡ None }
    ensures short_help { said (codes "-h" ∷ []) ≡ None }
    ensures version { said (codes "--version" ∷ []) ≡ None }
    ensures help_of_ask { said_after_ask (codes "--help" ∷ []) ≡ None }
    ensures missing { said (codes "ask" ∷ codes "s" ∷ []) ≡ None }
    ensures excess { said_after_ask (codes "r" ∷ []) ≡ None }
    ensures missing_report { said (codes "verify" ∷ codes "s" ∷ codes "q" ∷ []) ≡ None }
    ensures no_spec { said (codes "forced" ∷ []) ≡ None }
    ensures no_options { said (codes "forced" ∷ codes "s" ∷ codes "--brief" ∷ []) ≡ None }
    ensures no_size { said (codes "trial" ∷ []) ≡ None }
    ensures size_zero { said (codes "trial" ∷ codes "0" ∷ []) ≡ None }
    ensures size_past { said (codes "trial" ∷ codes "1001" ∷ []) ≡ None }
    ensures two_sizes { said (codes "trial" ∷ codes "1" ∷ codes "2" ∷ []) ≡ None }
    ensures budget_zero { said_after_ask (codes "--budget" ∷ codes "0" ∷ []) ≡ None }
    ensures budget_past { said_after_ask (codes "--budget" ∷ codes "10000001" ∷ []) ≡ None }
    ensures budget_letter { said_after_ask (codes "--budget" ∷ codes "x" ∷ []) ≡ None }
    ensures budget_plus { said_after_ask (codes "--budget" ∷ codes "+5" ∷ []) ≡ None }
    ensures budget_zeros { said_after_ask (codes "--budget" ∷ codes "007" ∷ []) ≡ None }
    ensures budget_empty { said_after_ask (codes "--budget=" ∷ []) ≡ None }
    ensures budget_alone { said_after_ask (codes "--budget" ∷ []) ≡ None }
    ensures budget_twice { said_after_ask (codes "--budget" ∷ codes "1" ∷ codes "--budget" ∷ codes "2" ∷ []) ≡ None }
    ensures guide_twice { said_after_ask (codes "--guide" ∷ codes "1" ∷ codes "--guide=1" ∷ []) ≡ None }
    ensures brief_twice { said_after_ask (codes "--brief" ∷ codes "--brief" ∷ []) ≡ None }
    ensures guide_zero { said_after_ask (codes "--guide" ∷ codes "0" ∷ []) ≡ None }
    ensures guide_past { said_after_ask (codes "--guide" ∷ codes "5" ∷ []) ≡ None }
    ensures explain { said_after_explain (codes "1") [] ≡ explain_for 1 100000 None }
    ensures explain_options { said_after_explain (codes "12")
        (codes "--budget" ∷ codes "1" ∷ codes "--guide" ∷ codes "4" ∷ [])
        ≡ explain_for 12 1 (Some 4) }
    ensures explain_first { said (codes "explain" ∷ codes "--guide=1" ∷ codes "s" ∷ codes "q"
        ∷ codes "--budget=5" ∷ codes "7" ∷ [])
        ≡ explain_for 7 5 (Some 1) }
    ensures unit_most { said_after_explain (codes "4294967295") [] ≡ explain_for 4294967295 100000 None }
    ensures unit_past { said_after_explain (codes "4294967296") [] ≡ None }
    ensures unit_zero { said_after_explain (codes "0") [] ≡ None }
    ensures unit_letter { said_after_explain (codes "x") [] ≡ None }
    ensures unit_zeros { said_after_explain (codes "07") [] ≡ None }
    ensures unit_plus { said_after_explain (codes "+7") [] ≡ None }
    ensures no_unit { said (codes "explain" ∷ codes "s" ∷ codes "q" ∷ []) ≡ None }
    ensures two_units { said_after_explain (codes "1") (codes "2" ∷ []) ≡ None }
    ensures explain_brief { said_after_explain (codes "1") (codes "--brief" ∷ []) ≡ None }
    ensures explain_budget_zero { said_after_explain (codes "1") (codes "--budget" ∷ codes "0" ∷ []) ≡ None }
    ensures explain_guide_past { said_after_explain (codes "1") (codes "--guide" ∷ codes "5" ∷ []) ≡ None }
    ensures conflicts { said_after_conflicts [] ≡ conflicts_in_s 100000 None }
    ensures conflicts_options { said_after_conflicts
        (codes "--budget" ∷ codes "10000000" ∷ codes "--guide" ∷ codes "1" ∷ [])
        ≡ conflicts_in_s 10000000 (Some 1) }
    ensures no_conflicts { said (codes "conflicts" ∷ []) ≡ None }
    ensures conflicts_excess { said_after_conflicts (codes "q" ∷ []) ≡ None }
    ensures conflicts_brief { said_after_conflicts (codes "--brief" ∷ []) ≡ None }
    ensures conflicts_budget_past { said_after_conflicts (codes "--budget" ∷ codes "10000001" ∷ []) ≡ None }
    ensures conflicts_guide_zero { said_after_conflicts (codes "--guide" ∷ codes "0" ∷ []) ≡ None }
    ensures golden { said_after_golden [] ≡ golden_in_s 100000 None }
    ensures golden_options { said_after_golden
        (codes "--budget" ∷ codes "10000000" ∷ codes "--guide" ∷ codes "1" ∷ [])
        ≡ golden_in_s 10000000 (Some 1) }
    ensures no_golden { said (codes "golden" ∷ []) ≡ None }
    ensures no_relation { said (codes "golden" ∷ codes "s" ∷ []) ≡ None }
    ensures golden_excess { said_after_golden (codes "q" ∷ []) ≡ None }
    ensures golden_brief { said_after_golden (codes "--brief" ∷ []) ≡ None }
    ensures golden_budget_past { said_after_golden (codes "--budget" ∷ codes "10000001" ∷ []) ≡ None }
    ensures golden_guide_zero { said_after_golden (codes "--guide" ∷ codes "0" ∷ []) ≡ None }
    ensures possible { said_after_possible [] ≡ possible_for 100000 false None }
    ensures possible_options { said_after_possible
        (codes "--budget" ∷ codes "10000000" ∷ codes "--brief" ∷ codes "--guide" ∷ codes "1" ∷ [])
        ≡ possible_for 10000000 true (Some 1) }
    ensures possible_brief_twice { said_after_possible (codes "--brief" ∷ codes "--brief" ∷ []) ≡ None }
    ensures no_possible { said (codes "possible" ∷ []) ≡ None }
    ensures possible_missing { said (codes "possible" ∷ codes "s" ∷ []) ≡ None }
    ensures possible_budget_past { said_after_possible (codes "--budget" ∷ codes "10000001" ∷ []) ≡ None }
    ensures possible_guide_zero { said_after_possible (codes "--guide" ∷ codes "0" ∷ []) ≡ None }
    ensures table { said_after_ask (codes "--csv" ∷ []) ≡ certain_table_for 100000 None }
    ensures table_options { said_after_ask (codes "--guide" ∷ codes "4" ∷ codes "--csv" ∷ codes "--budget" ∷ codes "1" ∷ [])
        ≡ certain_table_for 1 (Some 4) }
    ensures brief_table { said_after_ask (codes "--brief" ∷ codes "--csv" ∷ []) ≡ None }
    ensures table_budget_zero { said_after_ask (codes "--csv" ∷ codes "--budget" ∷ codes "0" ∷ []) ≡ None }
    ensures possible_table { said_after_possible (codes "--csv" ∷ []) ≡ possible_table_for 100000 None }
    ensures possible_brief_table { said_after_possible (codes "--csv" ∷ codes "--brief" ∷ []) ≡ None }
    ensures verdict { said_after_ask (codes "--verdict" ∷ []) ≡ ask_for 100000 Verdict false None }
    ensures exit { said_after_ask (codes "--exit" ∷ []) ≡ ask_for 100000 Whole true None }
    ensures exit_brief { said_after_ask (codes "--exit" ∷ codes "--brief" ∷ []) ≡ ask_for 100000 Brief true None }
    ensures exit_verdict { said_after_ask (codes "--verdict" ∷ codes "--budget=7" ∷ codes "--exit" ∷ codes "--guide=2" ∷ [])
        ≡ ask_for 7 Verdict true (Some 2) }
    ensures brief_verdict { said_after_ask (codes "--brief" ∷ codes "--verdict" ∷ []) ≡ None }
    ensures verdict_table { said_after_ask (codes "--verdict" ∷ codes "--csv" ∷ []) ≡ None }
    ensures exit_table { said_after_ask (codes "--exit" ∷ codes "--csv" ∷ []) ≡ None }
    ensures verdict_twice { said_after_ask (codes "--verdict" ∷ codes "--verdict" ∷ []) ≡ None }
    ensures possible_verdict { said_after_possible (codes "--verdict" ∷ []) ≡ None }
    ensures possible_exit { said_after_possible (codes "--exit" ∷ []) ≡ None }
    ensures golden_table { said_after_golden (codes "--csv" ∷ []) ≡ None }
    ensures session { said_after_session [] ≡ session_over_s 100000 false None }
    ensures session_options { said_after_session
        (codes "--guide" ∷ codes "2" ∷ codes "--brief" ∷ codes "--budget" ∷ codes "10000000" ∷ [])
        ≡ session_over_s 10000000 true (Some 2) }
    ensures session_missing { said (codes "session" ∷ codes "s" ∷ []) ≡ None }
    ensures session_excess { said_after_session (codes "u" ∷ []) ≡ None }
    ensures session_brief_twice { said_after_session (codes "--brief" ∷ codes "--brief" ∷ []) ≡ None }
    ensures session_table { said_after_session (codes "--csv" ∷ []) ≡ None }
    ensures session_budget_zero { said_after_session (codes "--budget=0" ∷ []) ≡ None }
    ensures session_guide_past { said_after_session (codes "--guide" ∷ codes "5" ∷ []) ≡ None }
{}

/// Words say no command exactly where `clap` sees a fault in them, a number is wrong, or an answer is to be told in two ways: no
/// text that has to be there is missing from words that it takes.
pub fn refusals_have_causes()
    ensures caused { (words : List (List ℕ)) → command_of words ≡ None → IsRefused words }
    ensures refused { (words : List (List ℕ)) → IsRefused words → command_of words ≡ None }
{}

/// The numbers that words say are in their ranges: of `ask`, `explain`, `conflicts`, `golden`, `possible` and `session`
/// a budget of 1 to 10,000,000 and, where one guide is kept, its number of 1 to 4; of `trial` a size of 1 to 1000; of
/// `explain` a unit of 1 to 2^32 - 1.
pub fn numbers_are_in_range()
    ensures budget { (words : List (List ℕ)) (a : AskSaid) → command_of words ≡ Some (AskFor a) → (1 ≤ a.budget) ×
        (a.budget ≤ 10000000) }
    ensures guide { (words : List (List ℕ)) (a : AskSaid) → command_of words ≡ Some (AskFor a) → IfSome a.guide
        (λ k. (1 ≤ k) × (k ≤ 4)) }
    ensures size { (words : List (List ℕ)) (n : ℕ) → command_of words ≡ Some (TrialOf n) → (1 ≤ n) × (n ≤ 1000) }
    ensures unit { (words : List (List ℕ)) (e : ExplainSaid) → command_of words ≡ Some (ExplainFor e) → (1 ≤ e.unit) ×
        (e.unit ≤ 4294967295) }
    ensures explain_budget { (words : List (List ℕ)) (e : ExplainSaid) → command_of words ≡ Some (ExplainFor e) →
        (1 ≤ e.budget) × (e.budget ≤ 10000000) }
    ensures explain_guide { (words : List (List ℕ)) (e : ExplainSaid) → command_of words ≡ Some (ExplainFor e) →
        IfSome e.guide (λ k. (1 ≤ k) × (k ≤ 4)) }
    ensures conflicts_budget { (words : List (List ℕ)) (c : ConflictsSaid) → command_of words ≡ Some (ConflictsIn c) →
        (1 ≤ c.budget) × (c.budget ≤ 10000000) }
    ensures conflicts_guide { (words : List (List ℕ)) (c : ConflictsSaid) → command_of words ≡ Some (ConflictsIn c) →
        IfSome c.guide (λ k. (1 ≤ k) × (k ≤ 4)) }
    ensures golden_budget { (words : List (List ℕ)) (g : GoldenSaid) → command_of words ≡ Some (GoldenIn g) →
        (1 ≤ g.budget) × (g.budget ≤ 10000000) }
    ensures golden_guide { (words : List (List ℕ)) (g : GoldenSaid) → command_of words ≡ Some (GoldenIn g) →
        IfSome g.guide (λ k. (1 ≤ k) × (k ≤ 4)) }
    ensures possible_budget { (words : List (List ℕ)) (p : PossibleSaid) → command_of words ≡ Some (PossibleFor p) →
        (1 ≤ p.budget) × (p.budget ≤ 10000000) }
    ensures possible_guide { (words : List (List ℕ)) (p : PossibleSaid) → command_of words ≡ Some (PossibleFor p) →
        IfSome p.guide (λ k. (1 ≤ k) × (k ≤ 4)) }
    ensures certain_table { (words : List (List ℕ)) (t : TableSaid) → command_of words ≡ Some (CertainTableFor t) →
        (1 ≤ t.budget) × (t.budget ≤ 10000000) × IfSome t.guide (λ k. (1 ≤ k) × (k ≤ 4)) }
    ensures possible_table { (words : List (List ℕ)) (t : TableSaid) → command_of words ≡ Some (PossibleTableFor t) →
        (1 ≤ t.budget) × (t.budget ≤ 10000000) × IfSome t.guide (λ k. (1 ≤ k) × (k ≤ 4)) }
    ensures session { (words : List (List ℕ)) (s : SessionSaid) → command_of words ≡ Some (SessionOver s) →
        (1 ≤ s.budget) × (s.budget ≤ 10000000) × IfSome s.guide (λ k. (1 ≤ k) × (k ≤ 4)) }
{}
