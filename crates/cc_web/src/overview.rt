//! What there is, for people and for programs.

/// What there is, as a page or as JSON.
pub(crate) fn overview(is_html: bool) -> &'static str {
    if is_html { PAGE } else { JSON }
}

const PAGE: &str = r##"<!doctype html>
<html lang="en">
<head>
<meta charset="utf-8">
<meta name="viewport" content="width=device-width, initial-scale=1">
<title>ccnode</title>
<style>
:root { color-scheme: light dark; }
body { font: 16px/1.5 system-ui, sans-serif; max-width: 60rem; margin: 2rem auto; padding: 0 1rem; }
table { border-collapse: collapse; }
td, th { text-align: left; vertical-align: top; padding: .3rem 1rem .3rem 0; border-bottom: 1px solid #8884; }
</style>
</head>
<body>
<h1>ccnode</h1>
<p>A node of a store-collect cluster. Each node stores one value, and a reading shows what all nodes stored.</p>
<table>
<tr><th>Request</th><th>What it does</th></tr>
<tr><td><code>PUT /v1/text</code></td><td>stores the body, 1 to 64 bytes, as the node's text</td></tr>
<tr><td><code>PUT /v1/max</code></td><td>raises the node's maximum to the number in the body</td></tr>
<tr><td><code>PUT /v1/flag</code></td><td>sets the node's flag</td></tr>
<tr><td><code>POST /v1/set</code></td><td>adds the number in the body to the node's set</td></tr>
<tr><td><code>GET /v1/view</code></td><td>what each node stored last</td></tr>
<tr><td><code>GET /v1/max</code></td><td>the greatest maximum of all nodes</td></tr>
<tr><td><code>GET /v1/flag</code></td><td>whether any node's flag is set</td></tr>
<tr><td><code>GET /v1/set</code></td><td>the union of all nodes' sets</td></tr>
<tr><td><code>GET /v1/snapshot</code></td><td>what each node had stored at one moment</td></tr>
<tr><td><code>GET /v1/changes</code></td><td>what each node stored last, as an event whenever it changes</td></tr>
<tr><td><code>GET /v1/sessions/SESSION</code></td><td>the last request of a session of your own</td></tr>
</table>
<p><code>?timeout=5s</code> (or <code>500ms</code>) says how long a request may take: ten seconds else, a minute at most.
<code>Idempotency-Key: SESSION/REQUEST</code> makes a write happen exactly once, however often it is sent: number the
requests of each session 1, 2, 3 and on.</p>
<pre>curl -X PUT -d hello http://HOST:PORT/v1/text
curl http://HOST:PORT/v1/view</pre>
</body>
</html>
"##;

const JSON: &str =
    r##"{"writes":["PUT /v1/text","PUT /v1/max","PUT /v1/flag","POST /v1/set"],"readings":["GET /v1/view","GET /v1/max","GET /v1/flag","GET /v1/set","GET /v1/snapshot","GET /v1/changes","GET /v1/sessions/SESSION"],"query":"timeout=5s","once":"Idempotency-Key: SESSION/REQUEST"}"##;
