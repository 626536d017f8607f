// The script that is inserted.

/// The inserted script: nine lines, each ended by a line feed, 450 bytes.
pub const PRELUDE: &str = "<script id=\"$mug\">\n\
function $mug_turn(){$mug_log();}\n\
function $mug_fetch(){$mug_log();}\n\
function $mug_value(){var r=$mug_apply();$mug_log();return r;}\n\
function $mug_timer(){$mug_wrapArg(0);var r=$mug_apply();return r;}\n\
function $mug_listen(){$mug_wrapArg(1);var r=$mug_apply();return r;}\n\
function $mug_put(){$mug_wrapArg(0);var r=$mug_apply();return r;}\n\
function $mug_call(){$mug_count(1);try{return $mug_apply();}finally{$mug_count(-1);}}\n\
</script>\n";
