ghost use Rattle.std.specs.Prelude.{◌≡◌, None};
ghost use Rattle.worked_histories.specs.Rows.{judged, breaks};
ghost use Rattle.worked_histories.specs.Jobs.{digest_port, digest_of_three, job_without_its_result, results_exchanged, result_told_twice, result_of_no_job, result_of_another_input, handled_after_the_stop};

/// The results of a key are told in the order of its jobs, each once, and a result that comes after the stop is late.
pub fn results_of_a_key_come_in_order()
    ensures lawful { judged digest_port digest_of_three ≡ None }
    ensures wanting { judged digest_port job_without_its_result ≡ breaks 10 7 }
    ensures exchanged { judged digest_port results_exchanged ≡ breaks 9 4 }
    ensures twice { judged digest_port result_told_twice ≡ breaks 9 4 }
    ensures unsubmitted { judged digest_port result_of_no_job ≡ breaks 9 0 }
    ensures another { judged digest_port result_of_another_input ≡ breaks 9 3 }
    ensures stopped { judged digest_port handled_after_the_stop ≡ breaks 9 7 }
{}
