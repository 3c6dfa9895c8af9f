//! Each record has one verdict, and what the definitions say of histories that are written out.
ghost use Rattle.std.specs.Prelude.{◌≡◌, ◌+◌, ℕ, true, false, List, [], ◌∷◌, ◌++◌, Some, None, length};
ghost use Rattle.fy_history.specs.declared.history.Answer.TheVariants.{Unanswered, Nothing, Value};
ghost use Rattle.fy_history.specs.declared.history.End.TheVariants.{Open, Done, Undone, Refused, Unknown};
ghost use Rattle.fy_history.specs.declared.history.Trace.TheVariants.{Has, Stands};
ghost use Rattle.fy_records.specs.declared.TheConstants.{MINUTE_NANOS};
ghost use Rattle.fy_records.specs.declared.verdict.Judged.{Judged};
ghost use Rattle.fy_records.specs.declared.verdict.Loss.TheVariants.{Store, Process, Disks};
ghost use Rattle.fy_records.specs.declared.verdict.Verdict.TheVariants.{Lost, Wrong, Missing, Unreadable, Stale, Kept};
ghost use Rattle.fy_records.specs.Counted.{count_of, count_below, is_acknowledged, is_lost, is_wrong, is_missing, is_unreadable, is_stale, is_kept, is_register, is_recovered, is_refused_and_there, is_gone, is_unwritten, is_twice, of_open};
ghost use Rattle.fy_records.specs.Lines.{Lines, record_of};
ghost use Rattle.fy_records.specs.Verdicts.{AreJudged};
ghost use Rattle.fy_records.specs.Worked.{at, write, of_store, of_process, on, history, judged, judged_unwhole, looked_through, lacks_until};

/// The limit of this crate, as a number.
pub fn limits()
    ensures { MINUTE_NANOS ≡ 60000000000 }
{}

/// The counts of the verdicts sum to the number of acknowledged records.
pub fn each_has_one_verdict()
    ensures { (records : List Judged) → count_of is_lost records + count_of is_wrong records
        + count_of is_missing records + count_of is_unreadable records
        + count_of is_stale records + count_of is_kept records ≡ length records }
{}

/// There are as many judged records as keys with an acknowledged record.
pub fn all_are_judged()
    ensures { (h : Lines) (records : List Judged) → AreJudged h records
        → length records ≡ count_below h.names (is_acknowledged h) }
{}

/// A record that is told at the end is kept.
pub fn kept()
    ensures told { judged (of_store 200 200 (Value 1) ∷ []) [] ≡ Kept }
    ensures on_disk { judged [] (on 2 (Has 0 1) ∷ []) ≡ Kept }
    ensures lacked_before { judged (of_store 0 0 Nothing ∷ of_store 200 200 (Value 1) ∷ []) []
        ≡ Kept }
{}

/// A record is lost where the last answered read of the store as a whole lacked it, though an
/// earlier one told it, unless one told it that began later.
pub fn lost_by_store()
    ensures lost { judged (of_store 10 10 (Value 1) ∷ of_store 200 200 Nothing ∷ []) []
        ≡ Lost Store }
    ensures unanswered { judged (of_store 200 200 Nothing ∷ of_store 202 202 Unanswered ∷ []) []
        ≡ Lost Store }
    ensures told_again { judged (of_store 200 200 Nothing ∷ of_store 202 202 (Value 1) ∷ []) []
        ≡ Stale }
    ensures told_later { judged (of_store 200 200 Nothing ∷ of_process 2 202 202 (Value 1) ∷ []) []
        ≡ Stale }
{}

/// Where the store as a whole answered no read, a record is lost that a process lacks to the end,
/// unless a read told it that began later.
pub fn lost_by_process()
    ensures lost { judged (lacks_until 260) [] ≡ Lost Process }
    ensures short { judged (lacks_until 259) [] ≡ Unreadable }
    ensures store_unanswered { judged (of_store 150 150 Unanswered ∷ lacks_until 260) []
        ≡ Lost Process }
    ensures told_later { judged (lacks_until 260 ++ of_process 2 204 261 (Value 1) ∷ []) []
        ≡ Missing }
    ensures answered_in_time { judged (of_process 1 200 200 Nothing
        ∷ of_process 1 202 260 Unanswered ∷ []) [] ≡ Unreadable }
{}

/// A record is lost where no read at the end was answered and each disk is known not to have it.
pub fn lost_on_disks()
    ensures lost { judged [] looked_through ≡ Lost Disks }
    ensures has_it { judged [] (on 1 (Has 0 1) ∷ looked_through) ≡ Kept }
    ensures stands { judged [] (on 1 (Stands 0) ∷ looked_through) ≡ Unreadable }
    ensures stands_elsewhere { judged [] (on 0 (Stands 0) ∷ on 1 (Stands 2) ∷ looked_through)
        ≡ Lost Disks }
    ensures not_all { judged [] (on 0 (Has 2 2) ∷ []) ≡ Unreadable }
    ensures answered { judged (of_process 1 200 200 Nothing ∷ []) looked_through ≡ Unreadable }
{}

/// A value that nobody wrote is wrong, in whatever order the lines stand; a key that is told
/// several times in one answer is counted besides.
pub fn told_wrongly()
    ensures behind { judged (of_store 200 200 (Value 1) ∷ of_store 200 200 (Value 2) ∷ []) []
        ≡ Wrong }
    ensures before { judged (of_store 200 200 (Value 2) ∷ of_store 200 200 (Value 1) ∷ []) []
        ≡ Wrong }
    ensures twice { is_twice (history (write Done ∷ [])
        (record (of_store 200 200 (Value 1)) { times = 2 } ∷ of_store 200 200 (Value 2) ∷ []) [])
        0 ≡ true }
    ensures once { is_twice (history (write Done ∷ []) (of_store 200 200 (Value 1) ∷ []) []) 0
        ≡ false }
    ensures lost_too { judged (of_store 10 10 (Value 2) ∷ of_store 200 200 Nothing ∷ []) []
        ≡ Lost Store }
{}

/// A record is missing, and not lost, that the store tells and a disk has, while a process that
/// counts as whole lacks it for a minute.
pub fn missing()
    ensures missing { judged (of_store 190 190 (Value 1) ∷ lacks_until 260) (on 0 (Has 0 1) ∷ [])
        ≡ Missing }
    ensures not_whole { judged_unwhole (of_store 190 190 (Value 1) ∷ lacks_until 260) ≡ Stale }
    ensures short { judged (of_store 190 190 (Value 1) ∷ lacks_until 259) [] ≡ Stale }
{}

/// A process that lags for forty seconds and tells it then leaves the record stale.
pub fn stale()
    ensures lags { judged (of_process 1 200 200 Nothing ∷ of_process 1 202 239 Nothing
        ∷ of_process 1 204 240 (Value 1) ∷ []) [] ≡ Stale }
    ensures at_once { judged (of_process 1 200 200 (Value 1) ∷ []) [] ≡ Kept }
{}

/// A read that told the record makes it known, though its write wasn't acknowledged yet.
pub fn known_before_its_ack()
    ensures { judged (record (of_store 0 0 (Value 1)) { ended = Some (at 0 0) }
        ∷ record (of_store 1 0 Nothing) { ended = Some (at 1 0) }
        ∷ of_store 200 200 (Value 1) ∷ []) [] ≡ Stale }
{}

/// Writes that weren't acknowledged, and keys that have no record.
pub fn others()
    ensures refused { of_open (history (write Refused ∷ []) (of_store 50 50 (Value 1) ∷ []) []) 0
        (is_refused_and_there (history (write Refused ∷ []) (of_store 50 50 (Value 1) ∷ []) []))
        ≡ true }
    ensures on_disk { is_refused_and_there (history (write Refused ∷ []) [] (on 0 (Has 0 1) ∷ []))
        (write Refused) ≡ true }
    ensures not_refused { is_refused_and_there (history (write Unknown ∷ [])
        (of_store 50 50 (Value 1) ∷ []) []) (write Unknown) ≡ false }
    ensures recovered { is_recovered (history (write Unknown ∷ [])
        (of_store 200 200 (Value 1) ∷ []) []) (write Unknown) ≡ true }
    ensures too_early { is_recovered (history (write Unknown ∷ [])
        (of_store 50 50 (Value 1) ∷ []) []) (write Unknown) ≡ false }
    ensures gone { is_gone (history (write Open ∷ [])
        (of_store 50 50 (Value 1) ∷ of_store 200 200 Nothing ∷ []) []) (write Open) ≡ true }
    ensures never_told { is_gone (history (write Open ∷ []) (of_store 200 200 Nothing ∷ []) [])
        (write Open) ≡ false }
    ensures undone { is_unwritten (history (write Undone ∷ [])
        (of_store 200 200 (Value 1) ∷ []) []) 0 ≡ true }
    ensures unwritten { is_unwritten (history [] (of_store 200 200 (Value 2) ∷ []) []) 0 ≡ true }
    ensures written { is_unwritten (history (write Unknown ∷ [])
        (of_store 200 200 (Value 1) ∷ []) []) 0 ≡ false }
    ensures register { is_register (history (write Done ∷ write Open ∷ []) [] []) 0 ≡ true }
    ensures no_record { record_of (history (write Done ∷ write Open ∷ []) [] []) 0 ≡ None }
{}
